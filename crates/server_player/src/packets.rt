//! Packets between the gateway and a worker: a kind, the number of a connection, a length, and so many bytes.

use std::alloc::AllocError;

/// Bytes of a packet before those that it brings.
const HEAD: usize = 13;

/// Kinds of packets.
pub const DATA: u8 = 0;

pub const OPEN: u8 = 1;

pub const CLOSE: u8 = 2;

pub const WAKE: u8 = 3;

/// A packet at the front of bytes.
#[derive(Clone, Copy)]
pub struct Packet<'a> {
    pub kind: u8,
    pub number: u64,
    pub data: &'a [u8],
    /// How many bytes it has in all.
    pub len: usize,
}

/// Adds a packet.
pub fn push_packet(
    out: &mut Vec<u8>,
    kind: u8,
    number: u64,
    data: &[u8],
) -> Result<(), AllocError> {
    out.push(kind)?;
    out.extend_from_slice(&number.to_be_bytes())?;
    let len = data.len().min(u32::MAX as usize) as u32;
    out.extend_from_slice(&len.to_be_bytes())?;
    out.extend_from_slice(data)
}

/// The number that these bytes spell, the highest first.
fn number_of(bytes: &[u8]) -> u64 {
    let mut number = 0u64;
    for byte in bytes {
        number = number.wrapping_mul(256).wrapping_add(u64::from(*byte));
    }
    number
}

/// The packet at the front, where it is whole.
pub fn first_packet(bytes: &[u8]) -> Option<Packet<'_>> {
    let head = bytes.get(..HEAD)?;
    let kind = head.first()?;
    let number = number_of(head.get(1..9)?);
    let count = number_of(head.get(9..)?).min(1 << 32) as usize;
    let len = HEAD.saturating_add(count);
    let data = bytes.get(HEAD..len)?;
    Some(Packet {
        kind: *kind,
        number,
        data,
        len,
    })
}
