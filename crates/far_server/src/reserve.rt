//! Room for replies, in case the system refuses memory.
//!
//! A change whose reply can't be written must not be made. This holds because there is room for the reply
//! first:
//! - The request loop (`request_loop`) makes room for a short reply before it hands a request over.
//! - A long reply takes more room as it is written, which is before the change. If memory is refused for it,
//!   there is no change. An error takes its place, in the room for a short one.
//! - MGET and EXEC reply several times, so they make such room for each part. What EXEC has for the errors of
//!   the requests after the one that it runs stays free (`Workspace::beside`).
ghost use Rattle.std.specs.Prelude.{◌≡◌, ◌++◌, ℕ, List, replicate, OnOk};
ghost use Rattle.std.specs.List.{flat_map};
ghost use Rattle.resp.specs.Replies.{Failure, token};

use crate::one_reply::push_one_failure;
use std::alloc::AllocError;

/// How many bytes of room a short reply gets: a number, a status, an error, or the head of an array.
const SHORT: usize = 1 << 10;

/// How many bytes of room the error of a request gets that EXEC does not run.
const ERROR: usize = 64;

/// How many bytes of room the errors of `requests` requests get.
pub(crate) fn errors_of(requests: usize) -> usize {
    requests.saturating_mul(ERROR)
}

/// Makes room for `bytes` more bytes in a reply, and adds none. Returns false if memory is refused.
pub(crate) fn has_room_for(bytes: usize, reply: &mut Vec<u8>) -> bool
    ensures { reply.new.items ≡ reply.old.items }
{
    reply.reserve(bytes).is_ok()
}

/// Makes room for one more short reply, and for `beside` bytes after it. Returns false if memory is refused.
pub(crate) fn has_room_for_short(beside: usize, reply: &mut Vec<u8>) -> bool
    ensures { reply.new.items ≡ reply.old.items }
{
    has_room_for(beside.saturating_add(SHORT), reply)
}

/// Pushes the same error `count` times.
pub(crate) fn push_failures(
    reply: &mut Vec<u8>,
    count: usize,
    text: &[u8],
) -> Result<(), AllocError>
    ensures { OnOk result (reply.new.items ≡ reply.old.items ++ flat_map token (replicate count (Failure text.now))) }
{
    for at in 0..count {
        let _ = at;
        match push_one_failure(reply, text) {
            Ok(()) => {}
            Err(refused) => return Err(refused),
        }
    }
    Ok(())
}
