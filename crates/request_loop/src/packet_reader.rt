//! Reads packets from a reader.
ghost use Rattle.std.specs.Prelude.{◌≡◌, ℕ, ◌+◌, ◌<◌, ◌≤◌, List, [], ◌++◌, true, false, length, Some, None, Ok, IfOk, IfSome, OnErr, OnOk, MatchOption};
ghost use Rattle.std.specs.Int.{w32, w64, from_be_bytes};
ghost use Rattle.std.specs.Io.KnownBytes.{Keeps, prepend_known, Consumes};
ghost use Rattle.request_loop.specs.Packets.{IsReady, kind_byte, packet_bytes};

use crate::ends::{PacketInput, PacketOutput};
use crate::packet::{Head, Kind, most_of};
use crate::packet_fault::PacketFault;
use std::io::ErrorKind;

/// Makes sure that nothing waits in the writer while the loop waits for the reader.
fn make_ready<R: PacketInput, W: PacketOutput>(input: &R, output: &mut W) -> Result<(), PacketFault>
    ensures ready { OnOk result (IsReady R.filled W.handed_on input.now output.new) }
    ensures same { Keeps (W.contents output.old) (W.contents output.new) }
{
    if input.is_filled() {
        return Ok(());
    }
    match output.hand_on() {
        Ok(()) => Ok(()),
        Err(_) => Err(PacketFault::Io),
    }
}

/// Moves at most `most` bytes from the reader to the end of the room, and returns how many. None if the
/// read was interrupted, and 0 if the reader has ended. It may wait, so nothing waits in the writer.
fn move_some<R: PacketInput, W: PacketOutput>(
    input: &mut R,
    _output: &W,
    room: &mut Vec<u8>,
    most: usize,
) -> Result<Option<usize>, PacketFault>
    requires { IsReady R.filled W.handed_on input.old _output.now }
    ensures moved { Keeps (prepend_known room.old.items (R.remaining input.old)) (prepend_known room.new.items (R.remaining input.new)) }
    ensures count { IfOk result (λ r. MatchOption r (length room.new.items ≡ length room.old.items) (λ n. (length room.new.items ≡ length room.old.items + n) × (n ≤ most))) }
    ensures end { result ≡ Ok (Some 0) → 0 < most → IfSome (R.remaining input.old) (λ bytes. bytes ≡ []) }
{
    let available = match input.fill_buf() {
        Ok(available) => available,
        Err(error) => {
            return if error.kind() == ErrorKind::Interrupted {
                Ok(None)
            } else {
                Err(PacketFault::Io)
            };
        }
    };
    let count = available.len().min(most);
    match room.extend_from_slice(&available[..count]) {
        Ok(()) => {}
        Err(_) => return Err(PacketFault::Memory),
    }
    input.consume(count);
    Ok(Some(count))
}

/// Moves `count` bytes, and returns whether the reader had them.
fn move_all<R: PacketInput, W: PacketOutput>(
    input: &mut R,
    output: &mut W,
    room: &mut Vec<u8>,
    count: usize,
) -> Result<bool, PacketFault>
    ensures moved { Keeps (prepend_known room.old.items (R.remaining input.old)) (prepend_known room.new.items (R.remaining input.new)) }
    ensures all { IfOk result (λ whole. whole ≡ true → length room.new.items ≡ length room.old.items + count) }
    ensures end { result ≡ Ok false → IfSome (R.remaining input.old) (λ bytes. length room.new.items ≡ length (room.old.items ++ bytes)) }
    ensures same { Keeps (W.contents output.old) (W.contents output.new) }
{
    let mut left = count;
    for round in 0..u64::MAX {
        let _ = round;
        if left == 0 {
            return Ok(true);
        }
        make_ready(input, output)?;
        match move_some(input, output, room, left) {
            Ok(Some(n)) => {
                if n == 0 {
                    return Ok(false);
                }
                left -= n;
            }
            Ok(None) => {}
            Err(fault) => return Err(fault),
        }
    }
    Err(PacketFault::Io)
}

fn number_of(bytes: &[u8]) -> u32
    requires { length bytes.now ≡ 4 }
    ensures { result ≡ from_be_bytes w32 bytes.now }
{
    u32::from_be_bytes([bytes[0], bytes[1], bytes[2], bytes[3]])
}

fn connection_of(bytes: &[u8]) -> u64
    requires { length bytes.now ≡ 8 }
    ensures { result ≡ from_be_bytes w64 bytes.now }
{
    u64::from_be_bytes([
        bytes[0], bytes[1], bytes[2], bytes[3], bytes[4], bytes[5], bytes[6], bytes[7],
    ])
}

fn kind_of(byte: u8) -> Option<Kind>
    ensures { IfSome result (λ kind. byte ≡ kind_byte kind) }
{
    match byte {
        0 => Some(Kind::Data),
        1 => Some(Kind::Open),
        2 => Some(Kind::Close),
        3 => Some(Kind::Wake),
        4 => Some(Kind::LetIn),
        5 => Some(Kind::LetOut),
        6 => Some(Kind::Note),
        7 => Some(Kind::Holds),
        _ => None,
    }
}

/// Reads the next packet. Its bytes replace what `room` had. None if the reader has ended.
///
/// If it has to wait for bytes, the writer hands on what it has before.
pub(crate) fn read_packet<R: PacketInput, W: PacketOutput>(
    input: &mut R,
    output: &mut W,
    header: &mut Vec<u8>,
    room: &mut Vec<u8>,
) -> Result<Option<Head>, PacketFault>
    ensures read { IfOk result (λ r. MatchOption r (Keeps (R.remaining input.old) (R.remaining input.new)) (λ h. Consumes (R.remaining input.old) (R.remaining input.new) (packet_bytes (record { head = h; bytes = room.new.items })))) }
    ensures end { result ≡ Ok None → IfSome (R.remaining input.old) (λ bytes. bytes ≡ []) }
    ensures part { OnErr result ((part : List ℕ) × Consumes (R.remaining input.old) (R.remaining input.new) part) }
    ensures same { Keeps (W.contents output.old) (W.contents output.new) }
{
    header.clear();
    room.clear();
    if !move_all(input, output, header, 13)? {
        return if header.is_empty() {
            Ok(None)
        } else {
            Err(PacketFault::Cut)
        };
    }
    let (mark, numbers) = header.as_slice().split_at(1);
    let (first, second) = numbers.split_at(8);
    let connection = connection_of(first);
    let len = number_of(second);
    let Some(kind) = kind_of(mark[0]) else {
        return Err(PacketFault::Kind);
    };
    if len > most_of(kind) {
        return Err(PacketFault::TooLong);
    }
    if move_all(input, output, room, len as usize)? {
        Ok(Some(Head { kind, connection }))
    } else {
        Err(PacketFault::Cut)
    }
}
