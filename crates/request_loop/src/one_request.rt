//! Takes one request from the front of a connection's bytes.
ghost use Rattle.std.specs.Prelude.{◌≡◌, ◌++◌, IfOk, OnOk, OnErr};
ghost use Rattle.resp.specs.Replies.{token, Failure};
ghost use Rattle.request_loop.specs.Workers.{fault_text, shown_byte};
ghost use Rattle.request_loop.specs.Turns.{Takes};

use crate::service::{Next, Service};
use resp::{Limits, ParseFault, Parsed, Span, parse, push_failure};
use std::alloc::AllocError;

/// What was taken.
pub(crate) enum Taken {
    /// A request of `consumed` bytes.
    Whole { consumed: usize, next: Next },
    /// Nothing: at least `missing` bytes of the request are missing.
    Short { missing: usize },
    /// Nothing: the bytes are no request. An error was pushed.
    Bad,
    /// Nothing: there is no memory for the places of its arguments, for a short reply, or for an
    /// error's text.
    Refused,
}

/// The room for a reply without which no request is taken. A number, a status, an error and the head of
/// a longer reply have fewer bytes. So a request whose reply can't be written changes nothing.
const ROOM: usize = 1 << 10;

/// A byte as it is shown in an error. One that would end the error's line is a blank, as Redis has it.
fn shown(byte: u8) -> u8
    ensures { result ≡ shown_byte byte }
{
    if byte == b'\r' {
        b' '
    } else if byte == b'\n' {
        b' '
    } else {
        byte
    }
}

/// Pushes the error for a fault that was found at this byte, as Redis has it if it has such an error. If
/// memory is refused, `out` is as before.
fn push_fault(out: &mut Vec<u8>, fault: ParseFault, byte: u8) -> Result<(), AllocError>
    ensures done { OnOk result (out.new.items ≡ out.old.items ++ token (Failure (fault_text fault byte))) }
    ensures kept { OnErr result (out.new.items ≡ out.old.items) }
{
    match fault {
        ParseFault::ArrayLength => {
            push_failure(out, b"ERR Protocol error: invalid multibulk length")
        }
        ParseFault::Mark => {
            let mut text = *b"ERR Protocol error: expected '$', got '?'";
            text[39] = shown(byte);
            push_failure(out, &text)
        }
        ParseFault::StringLength => push_failure(out, b"ERR Protocol error: invalid bulk length"),
        ParseFault::StringEnd => push_failure(out, b"ERR Protocol error: expected CR LF"),
        ParseFault::LongLine => push_failure(out, b"ERR Protocol error: too big inline request"),
        ParseFault::Quote => {
            push_failure(out, b"ERR Protocol error: unbalanced quotes in request")
        }
        ParseFault::Control => {
            push_failure(out, b"ERR Protocol error: control character in request")
        }
    }
}

/// Takes a request if there is room for a short reply, and pushes the reply to it. A request without
/// arguments gets no reply.
///
/// The only error is that of the service. If an allocation fails here, nothing is taken
/// (`Taken::Refused`).
pub(crate) fn take_one<S: Service>(
    service: &mut S,
    limits: Limits,
    connection: u64,
    bytes: &[u8],
    spans: &mut Vec<Span>,
    out: &mut Vec<u8>,
) -> Result<Taken, AllocError>
    ensures { IfOk result (λ t. Takes S.does limits connection service.old service.new bytes.now out.old.items out.new.items t) }
{
    let Ok(parsed) = parse(bytes, limits, spans) else {
        return Ok(Taken::Refused);
    };
    match parsed {
        Parsed::Request { consumed } => {
            if spans.is_empty() {
                let next = Next::GoOn;
                return Ok(Taken::Whole { consumed, next });
            }
            if out.reserve(ROOM).is_err() {
                return Ok(Taken::Refused);
            }
            let next = service.answer(connection, bytes, spans.as_slice(), out)?;
            Ok(Taken::Whole { consumed, next })
        }
        Parsed::Incomplete { missing } => Ok(Taken::Short { missing }),
        Parsed::Malformed { at, fault } => match push_fault(out, fault, bytes[at]) {
            Ok(()) => Ok(Taken::Bad),
            Err(_) => Ok(Taken::Refused),
        },
    }
}
