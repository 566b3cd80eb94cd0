//! A `Duplex` over a reader and a writer.
ghost use Rattle.std.specs.Prelude.{◌≡◌, [], false};
ghost use Rattle.request_loop.specs.Packets.{WireEnded, WireTells};

use crate::duplex::Duplex;
use crate::ends::{PacketInput, PacketOutput};
use crate::packet::Head;
use crate::packet_fault::PacketFault;
use crate::packet_reader::read_packet;
use crate::packet_writer::write_packet;
use resp::Limits;
use std::alloc::Global;

/// Packets over a reader and a writer.
///
/// Packets that are written wait for one another as long as others can be read without waiting. So many
/// short replies take one write. Before the reader waits, the writer hands on all that it has.
///
/// After a call that failed each further call returns `Failed`, and nothing is read or written any more.
#[derive(Drop)]
pub struct Wire<R, W> {
    input: R,
    output: W,
    limits: Limits,
    header: Vec<u8>,
    broken: bool,
}

impl<R: PacketInput, W: PacketOutput> Wire<R, W> {
    /// Packets of this reader and this writer, whose requests have these limits. It takes no memory
    /// yet.
    pub fn new(alloc: Global, input: R, output: W, limits: Limits) -> Self
        ensures nothing { ⟦<Wire<R, W> as Duplex>⟧.tells result result [] [] }
        ensures parts { (result.input ≡ input) × (result.output ≡ output) }
        ensures limits { result.limits ≡ limits }
    {
        Wire {
            input,
            output,
            limits,
            header: Vec::new(alloc),
            broken: false,
        }
    }
}

impl<R: PacketInput, W: PacketOutput> Duplex for Wire<R, W> {
    ghost tells = { λ v w came sent. WireTells R.remaining W.contents v w came sent };

    ghost whole = { λ w. w.broken ≡ false };

    ghost ended = { λ v w. WireEnded R.remaining v w };

    ghost handed_on = { λ w. W.handed_on w.output };

    ghost limits = { λ w. w.limits };

    fn limits(&self) -> Limits {
        self.limits
    }

    fn read(&mut self, room: &mut Vec<u8>) -> Result<Option<Head>, PacketFault> {
        if self.broken {
            return Err(PacketFault::Failed);
        }
        match read_packet(&mut self.input, &mut self.output, &mut self.header, room) {
            Ok(head) => Ok(head),
            Err(fault) => {
                // Earlier requests were carried out, so their replies still go out.
                let _ = self.output.hand_on();
                self.broken = true;
                Err(fault)
            }
        }
    }

    fn write(&mut self, head: Head, bytes: &[u8]) -> Result<(), PacketFault> {
        if self.broken {
            return Err(PacketFault::Failed);
        }
        match write_packet(&mut self.output, head, bytes) {
            Ok(()) => Ok(()),
            Err(fault) => {
                self.broken = true;
                Err(fault)
            }
        }
    }

    fn send(&mut self) -> Result<(), PacketFault> {
        if self.broken {
            return Err(PacketFault::Failed);
        }
        match self.output.hand_on() {
            Ok(()) => Ok(()),
            Err(_) => {
                self.broken = true;
                Err(PacketFault::Io)
            }
        }
    }
}

impl<R, W> Wire<R, W> {
    /// The reader and the writer, whatever was read and written.
    pub fn into_parts(self) -> (R, W)
        ensures { (result.0 ≡ self.input) × (result.1 ≡ self.output) }
    {
        let Wire {
            input,
            output,
            limits: _,
            header: _,
            broken: _,
        } = self;
        (input, output)
    }
}
