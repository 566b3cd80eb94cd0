//! The trait of what packets are read from and written to.
ghost use Rattle.std.specs.Prelude.{◌≡◌, ℕ, List, [], ◌∷◌, ◌++◌, Ok, None, IfOk, OnOk, OnErr, MatchOption};
ghost use Rattle.resp.specs.declared.limits.Limits.{Limits as limits_of_requests};
ghost use Rattle.request_loop.specs.Workers.{Packet, AreSettled};

use crate::packet::Head;
use crate::packet_fault::PacketFault;
use resp::Limits;

/// Packets that are read and written.
///
/// No packet is read while a reply is owed. Before each `read` every connection has been sent the
/// replies to all whole requests that were read of it. It has also been sent a close, if its client
/// closed it or it is over.
///
/// What is sent may wait for other packets, but not while `read` waits. `send` hands all of it on.
///
/// After an error each further call may fail. `Wire` does so.
pub trait Duplex {
    /// What the type claims: that from the first state to the second these packets were read, and these
    /// were written. A type that claims nothing has a `tells` that always holds.
    ghost tells: { Self → Self → List Packet → List Packet → Type 0 };

    /// Whether only whole packets were read and written.
    ghost whole: { Self → Type 0 };

    /// Whether nothing that the first state had to read is left in the second.
    ghost ended: { Self → Self → Type 0 };

    /// Whether all that was written has been handed on.
    ghost handed_on: { Self → Type 0 };

    /// The limits of requests on its connections.
    ghost limits: { Self → limits_of_requests };

    /// The limits of requests on its connections.
    fn limits(&self) -> Limits
        ensures { result ≡ limits self.now };

    /// Reads the next packet. Its bytes replace what `room` had. None at the end of the packets.
    ///
    /// The caller has sent all replies that are owed. `Wire` returns these errors:
    ///
    /// - `Io` if the reader fails, and `Cut` if it ends inside a packet.
    /// - `Kind` if the packet's kind is unknown, and `TooLong` if it has more bytes than its kind may
    ///   have.
    /// - `Memory` if an allocation for the packet fails.
    /// - `Failed` after an earlier error.
    fn read(&mut self, room: &mut Vec<u8>) -> Result<Option<Head>, PacketFault>
        requires settled { (start : Self) × (came : List Packet) × (sent : List Packet) × tells start self.old came sent × AreSettled (limits self.old) came sent }
        ensures came { IfOk result (λ r. MatchOption r
            ((start : Self) (came sent : List Packet) → tells start self.old came sent → tells start self.new came sent)
            (λ h. (start : Self) (came sent : List Packet) → tells start self.old came sent → tells start self.new (came ++ record { head = h; bytes = room.new.items } ∷ []) sent)) }
        ensures end { result ≡ Ok None → (start : Self) (came sent : List Packet) → tells start self.old came sent → ended start self.new }
        ensures failed { OnErr result ((start : Self) (came sent : List Packet) → tells start self.old came sent → tells start self.new came sent) }
        ensures whole { OnOk result (whole self.new) }
        ensures limits { limits self.new ≡ limits self.old };

    /// Writes a packet. It is handed on before the next `read` waits, and by `send`.
    ///
    /// `Wire` returns these errors:
    ///
    /// - `TooLong` if the packet has more bytes than its kind may have. Nothing of it is written.
    /// - `Io` if the writer fails.
    /// - `Failed` after an earlier error.
    fn write(&mut self, head: Head, bytes: &[u8]) -> Result<(), PacketFault>
        ensures sent { OnOk result ((start : Self) (came sent : List Packet) → tells start self.old came sent → tells start self.new came (sent ++ record { head = head; bytes = bytes.now } ∷ [])) }
        ensures failed { OnErr result ((start : Self) (came sent : List Packet) → tells start self.old came sent → tells start self.new came sent) }
        ensures whole { OnOk result (whole self.new) }
        ensures limits { limits self.new ≡ limits self.old };

    /// Hands on all that was written. `Wire` returns `Io` if the writer fails, and `Failed` after an
    /// earlier error.
    fn send(&mut self) -> Result<(), PacketFault>
        ensures all { OnOk result (handed_on self.new) }
        ensures told { (start : Self) (came sent : List Packet) → tells start self.old came sent → tells start self.new came sent }
        ensures ended { (start : Self) → ended start self.old → ended start self.new }
        ensures whole { OnOk result (whole self.new) }
        ensures limits { limits self.new ≡ limits self.old };
}
