//! A request to a writer, and a reply from a reader.
ghost use Rattle.std.specs.Prelude.{◌≡◌, ◌++◌, ◌<◌, ◌≤◌, ◌+◌, ℕ, List, length, IfOk, IfErr, OnOk};
ghost use Rattle.std.specs.Io.KnownBytes.{Appends, Consumes};
ghost use Rattle.resp_device.specs.Failures.{Breaks};
ghost use Rattle.resp_device.specs.Wire.{IsWhole};

use crate::StoreFailure;
use resp::{Limits, Received, Token, parse_token};
use std::io::{ErrorKind, Read, Write};

/// Writes the request whole.
pub(crate) fn send<W: Write>(output: &mut W, request: &[u8]) -> Result<(), StoreFailure>
    ensures sent { OnOk result (Appends (W.contents output.old) (W.contents output.new) request.now) }
    ensures failed { IfErr result Breaks }
{
    if let Err(error) = output.write_all(request) {
        return Err(StoreFailure::Write(error.kind()));
    }
    match output.flush() {
        Ok(()) => Ok(()),
        Err(error) => Err(StoreFailure::Write(error.kind())),
    }
}

/// Reads what there is, as much as `piece` has room for, and appends it to `room`: nothing where the
/// read was interrupted.
fn take_some<R: Read>(
    input: &mut R,
    piece: &mut [u8],
    room: &mut Vec<u8>,
) -> Result<(), StoreFailure>
    ensures taken { OnOk result ((part : List ℕ) × (room.new.items ≡ room.old.items ++ part)
        × Consumes (R.remaining input.old) (R.remaining input.new) part) }
    ensures grows { length room.new.items ≤ length room.old.items + length piece.old }
    ensures failed { IfErr result Breaks }
{
    match input.read(piece) {
        Ok(0) => Err(StoreFailure::Ended),
        Ok(count) => match room.extend_from_slice(&piece[..count]) {
            Ok(()) => Ok(()),
            Err(_) => Err(StoreFailure::Memory),
        },
        Err(error) => {
            if error.kind() == ErrorKind::Interrupted {
                Ok(())
            } else {
                Err(StoreFailure::Read(error.kind()))
            }
        }
    }
}

/// Reads one reply, of one token, and nothing behind it. Its bytes take the place of what `room` had.
pub(crate) fn receive<R: Read>(
    input: &mut R,
    piece: &mut [u8],
    room: &mut Vec<u8>,
    limits: Limits,
) -> Result<Token, StoreFailure>
    ensures whole { IfOk result (λ read. IsWhole limits room.new.items read) }
    ensures taken { OnOk result
        (Consumes (R.remaining input.old) (R.remaining input.new) room.new.items) }
    // Whatever comes, what is held of it is no longer than a reply may be, and one read.
    ensures bounded { length room.new.items ≤ limits.bytes + limits.line + 23 + length piece.old }
    ensures failed { IfErr result Breaks }
{
    room.clear();
    for round in 0..u64::MAX {
        let _ = round;
        match parse_token(room, limits) {
            Received::Reply { token, consumed } => {
                if consumed < room.len() {
                    return Err(StoreFailure::Surplus);
                }
                return Ok(token);
            }
            Received::Incomplete { missing: _ } => take_some(input, piece, room)?,
            Received::Malformed { at: _ } => return Err(StoreFailure::Malformed),
        }
    }
    Err(StoreFailure::Ended)
}
