//! Writes packets to a writer.
ghost use Rattle.std.specs.Prelude.{◌≡◌, ℕ, ◌≤◌, List, length, take, IfOk, OnOk, OnErr};
ghost use Rattle.std.specs.Io.KnownBytes.{Keeps, Appends};
ghost use Rattle.request_loop.specs.Packets.{kind_byte, packet_bytes};

use crate::packet::{Head, Kind, most_of};
use crate::packet_fault::PacketFault;
use std::io::{ErrorKind, Write};

/// Writes some of the bytes, and returns how many: 0 if the write was interrupted.
fn put_some<W: Write>(output: &mut W, bytes: &[u8]) -> Result<usize, PacketFault>
    ensures within { IfOk result (λ n. n ≤ length bytes.now) }
    ensures put { IfOk result (λ n. Appends (W.contents output.old) (W.contents output.new) (take n bytes.now)) }
    ensures kept { OnErr result ((part : List ℕ) × Appends (W.contents output.old) (W.contents output.new) part) }
{
    match output.write(bytes) {
        Ok(n) => {
            if n == 0 {
                return Err(PacketFault::Io);
            }
            Ok(n)
        }
        Err(error) => {
            if error.kind() == ErrorKind::Interrupted {
                Ok(0)
            } else {
                Err(PacketFault::Io)
            }
        }
    }
}

fn put_all<W: Write>(output: &mut W, bytes: &[u8]) -> Result<(), PacketFault>
    ensures put { OnOk result (Appends (W.contents output.old) (W.contents output.new) bytes.now) }
    ensures part { OnErr result ((part : List ℕ) × Appends (W.contents output.old) (W.contents output.new) part) }
{
    let mut rest = bytes;
    for round in 0..u64::MAX {
        let _ = round;
        if rest.is_empty() {
            return Ok(());
        }
        let n = put_some(output, rest)?;
        rest = &rest[n..];
    }
    Err(PacketFault::Io)
}

fn byte_of(kind: Kind) -> u8
    ensures { result ≡ kind_byte kind }
{
    match kind {
        Kind::Data => 0,
        Kind::Open => 1,
        Kind::Close => 2,
        Kind::Wake => 3,
        Kind::LetIn => 4,
        Kind::LetOut => 5,
        Kind::Note => 6,
        Kind::Holds => 7,
    }
}

/// Writes a packet. A packet with more bytes than its kind may have is refused, and
/// nothing of it is written.
pub(crate) fn write_packet<W: Write>(
    output: &mut W,
    head: Head,
    bytes: &[u8],
) -> Result<(), PacketFault>
    ensures put { OnOk result (Appends (W.contents output.old) (W.contents output.new) (packet_bytes (record { head = head; bytes = bytes.now }))) }
    ensures part { OnErr result ((part : List ℕ) × Appends (W.contents output.old) (W.contents output.new) part) }
{
    if bytes.len() > most_of(head.kind) as usize {
        return Err(PacketFault::TooLong);
    }
    let len = bytes.len() as u32;
    put_all(output, &[byte_of(head.kind)])?;
    put_all(output, &head.connection.to_be_bytes())?;
    put_all(output, &len.to_be_bytes())?;
    put_all(output, bytes)
}
