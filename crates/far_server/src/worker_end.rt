//! How the workers of a server, and its sweep, end.

use crate::pipes::PipesFault;
use request_loop::LoopFault;
use thiserror::Error;

/// Why a worker ended before its packets did.
#[derive(Clone, Copy, Debug, PartialEq, Eq, Error)]
pub enum ServeFault {
    /// Its pipes can't be opened.
    #[error("{0}")]
    Pipes(PipesFault),
    /// It can't go on, for example because a packet can't be read, or must not come now.
    #[error("{0}")]
    Loop(LoopFault),
}

/// How a worker of a server, or the sweep, has ended.
#[derive(Drop)]
pub enum WorkerEnd<I: Drop, O: Drop> {
    /// A worker. If it served until no more packets came, these are its reader and its writer.
    Served(Result<(I, O), ServeFault>),
    /// The sweep, which is the last in the list of `run_server`.
    Sweep,
}
