//! What a worker of a server keeps from one map to the next.

use crate::server::Kept;
use crate::worker_end::WorkerEnd;
use request_loop::{Holds, PacketInput, PacketOutput, Wire};
use std::marker::Model;

/// A worker that has left a map, and goes on in the next one. Contracts see its packets (`wire`), what the
/// request loop holds of its connections (`holds`), and what the worker knows of these (`kept`).
#[derive(Drop)]
pub(crate) struct PausedWorker<I: PacketInput + Drop, O: PacketOutput + Drop> {
    pub(crate) wire: Wire<I, O>,
    pub(crate) holds: Holds,
    pub(crate) kept: Kept,
}

impl<I: PacketInput + Drop, O: PacketOutput + Drop> Model for PausedWorker<I, O> {
    ghost use Rattle.far_server.specs.Left.{LeftView, HasStood};

    ghost Value = { LeftView I O };

    ghost view = { λ l. record { wire = l.wire; views = l.holds; connections = l.kept.connections.entries } };

    ghost invariant = { λ l. HasStood I.remaining O.contents l.wire l.holds };
}

/// What a worker, or the sweep, keeps from one map to the next.
#[derive(Drop)]
pub(crate) enum WorkerState<I: PacketInput + Drop, O: PacketOutput + Drop> {
    /// It has not begun.
    Fresh,
    /// A worker that goes on in the next map.
    Left(PausedWorker<I, O>),
    /// It has ended. The sweep ends with each map, and begins again in the next one.
    Ended(WorkerEnd<I, O>),
}
