//! Where the workers' packets come from and go to.

ghost use Rattle.std.specs.Prelude.{IfOk};

use request_loop::{PacketInput, PacketOutput};
use std::alloc::Global;
use thiserror::Error;

/// Why the pipes of a worker can't be opened.
#[derive(Clone, Copy, Debug, PartialEq, Eq, Error)]
pub enum PipesFault {
    /// The system could not open one of them.
    #[error("the pipes of a worker cannot be opened")]
    Io,
    /// An allocation failed.
    #[error("memory")]
    Memory,
}

/// A reader and a writer for each worker, for example two named pipes. Packets of requests come from the one,
/// and packets of replies go to the other.
pub trait Pipes {
    ghost use Rattle.std.specs.Prelude.{ℕ, List};

    /// Where requests come from: packets as `request_loop` reads them.
    type Input: PacketInput + Drop;

    /// Where replies go to.
    type Output: PacketOutput + Drop;

    /// Whether the worker of this number may be given this reader and this writer.
    ghost opens: { Self → ℕ → Self.Input → Self.Output → Type 0 };

    /// Opens the reader and the writer of the worker of number `worker`, counted from 0. Each is opened once,
    /// by the worker's own thread, which may wait here for the other side.
    ///
    /// Returns `Io` if the system can't open one of them, and `Memory` if an allocation fails. The worker
    /// ends then, with this fault, and the others go on.
    fn open(&self, alloc: Global, worker: u32) -> Result<(Self::Input, Self::Output), PipesFault>
        ensures { IfOk result (λ both. opens self.now worker both.0 both.1) };
}
