//! What stands round each command of a run.

/// Is asked before each command, and told after it. Workers are counted from 1, and so are the commands of each.
pub trait Gate: Sync {
    /// Whether the command may be run. False gives up the run.
    fn before(&self, worker: u32, command: u32) -> bool;

    /// The command has been replied.
    fn after(&self, worker: u32, command: u32);
}

/// Lets every command pass.
#[derive(Clone, Copy, Debug)]
pub struct OpenGate;

impl Gate for OpenGate {
    fn before(&self, _worker: u32, _command: u32) -> bool {
        true
    }

    fn after(&self, _worker: u32, _command: u32) {}
}

/// A gate as a worker meets it. A worker starts no thread, and the functions that its session's calls stand in may ask for no
/// `Sync`, which `Gate` does.
pub(crate) trait GateKeeper {
    fn lets_begin(&self, worker: u32, command: u32) -> bool;

    fn sees_end(&self, worker: u32, command: u32);
}

impl<G: Gate> GateKeeper for G {
    fn lets_begin(&self, worker: u32, command: u32) -> bool {
        self.before(worker, command)
    }

    fn sees_end(&self, worker: u32, command: u32) {
        self.after(worker, command);
    }
}
