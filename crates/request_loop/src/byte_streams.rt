//! The request loop from a reader's bytes to a writer's.
ghost use Rattle.std.specs.Prelude.{ℕ, List, IfOk};
ghost use Rattle.std.specs.Io.KnownBytes.{Consumes, Appends};
ghost use Rattle.request_loop.specs.Workers.{Packet};
ghost use Rattle.request_loop.specs.Served.{Served};
ghost use Rattle.request_loop.specs.Packets.{packets_bytes};

use crate::ends::{PacketInput, PacketOutput};
use crate::fault::LoopFault;
use crate::service::Service;
use crate::wire::Wire;
use crate::worker_loop::serve;
use resp::Limits;
use std::alloc::Global;

/// Serves the packets of a reader to its end, or until the service leaves at a wake, and writes
/// packets.
///
/// The contract holds if both types state which bytes were read and written. Then these packets were
/// read, and these written. Each connection was sent the replies to its requests, in order, and none is
/// missing.
///
/// Returns the reader and the writer. Errors are those of `serve_on`.
pub fn serve_over<R: PacketInput + Drop, W: PacketOutput + Drop, S: Service>(
    alloc: Global,
    input: R,
    output: W,
    limits: Limits,
    service: &mut S,
) -> Result<(R, W), LoopFault>
    ensures { IfOk result (λ parts. (came : List Packet) × (sent : List Packet) × Consumes (R.remaining input) (R.remaining parts.0) (packets_bytes came) × Appends (W.contents output) (W.contents parts.1) (packets_bytes sent) × Served S.does limits service.old service.new came sent × W.handed_on parts.1) }
{
    let mut wire = Wire::new(alloc, input, output, limits);
    match serve(alloc, &mut wire, service) {
        Ok(()) => Ok(wire.into_parts()),
        Err(fault) => Err(fault),
    }
}
