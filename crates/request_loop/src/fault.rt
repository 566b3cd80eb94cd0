//! Why the loop ends before its packets do.
use crate::packet_fault::PacketFault;
use std::alloc::AllocError;
use thiserror::Error;

/// Why the loop ended before its packets did.
#[derive(Clone, Copy, Debug, PartialEq, Eq, Error)]
pub enum LoopFault {
    /// A packet can't be read or written. That includes a packet whose bytes have no room.
    #[error(transparent)]
    Packet(PacketFault),
    /// The service returned that an allocation failed.
    ///
    /// Most allocations of the loop itself cost one connection when they fail. Only those for the head
    /// and the bytes of a packet end the loop, as a `PacketFault`.
    #[error("memory")]
    Memory,
    /// A packet was read that is not allowed now.
    ///
    /// For example, `Data` or `Close` of a connection that was not opened, or an `Open` whose number is
    /// not the next one, or is 2^64 - 1. `LetIn`, `LetOut` and `Holds` are never allowed, because only
    /// the loop sends them.
    #[error("a packet out of turn")]
    OutOfTurn,
    /// The loop took 2^64 - 1 packets, as many as it can count.
    #[error("too many packets")]
    Counted,
}

impl From<AllocError> for LoopFault {
    fn from(_refused: AllocError) -> LoopFault {
        LoopFault::Memory
    }
}

impl From<PacketFault> for LoopFault {
    fn from(fault: PacketFault) -> LoopFault {
        LoopFault::Packet(fault)
    }
}
