//! Notes of the gateway: texts that belong to no connection.

use crate::context::ServerContext;
use crate::news::push_news;
use std::alloc::AllocError;
use std::sync::Wait;
use std::sync::atomic::Ordering;

/// Asks for an answer once all that came before is answered. The number after this word is sent back, after
/// the word `synced`.
const SYNC: &[u8] = b"sync ";

const SYNCED: &[u8] = b"synced ";

/// Asks for what `news.rt` says.
const NEWS: &[u8] = b"news";

/// What the gateway reports, each a word and a number: here how many clients it refused.
const REJECTED: &[u8] = b"rejected_connections ";

/// How many clients it closed to keep to the clients' part of the memory.
const EVICTED: &[u8] = b"clients_closed ";

/// How many bytes the gateway and the workers keep for clients.
const MEMORY: &[u8] = b"clients_memory ";

/// How many bytes of memory the gateway and the server have.
const RESIDENT: &[u8] = b"resident_bytes ";

/// The number that this text spells. None if it is no number, or has more than 64 bits.
fn number_in(text: &[u8]) -> Option<u64> {
    str::from_utf8(text).ok()?.parse().ok()
}

/// Takes a note, and pushes the answer if it asks for one. A text that is not known is ignored.
pub(crate) fn take_note<C, R: Wait>(
    context: &ServerContext<'_, C, R>,
    text: &[u8],
    answer: &mut Vec<u8>,
) -> Result<(), AllocError> {
    if let Some(number) = text.strip_prefix(SYNC) {
        if number_in(number).is_some() {
            answer.extend_from_slice(SYNCED)?;
            answer.extend_from_slice(number)?;
        }
        return Ok(());
    }
    if text == NEWS {
        return push_news(context, answer);
    }
    let told = &context.shared_statistics.gateway;
    for (word, place) in [
        (REJECTED, &told.rejected),
        (EVICTED, &told.evicted),
        (MEMORY, &told.memory),
        (RESIDENT, &told.resident),
    ] {
        if let Some(number) = text.strip_prefix(word).and_then(number_in) {
            place.store(number, Ordering::SeqCst);
        }
    }
    Ok(())
}
