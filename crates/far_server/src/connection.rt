//! What a worker knows of a connection.
ghost use Rattle.std.specs.Prelude.{◌≡◌, ◌<◌, ◌≤◌, [], None, length, MatchBool, IfOk, OnErr};
ghost use Rattle.far_server.specs.Selections.{first_selected};

use crate::queue::Queue;
use crate::selection::Selection;
use std::alloc::{AllocError, Global};

/// The most bytes of a connection's name.
const LONGEST_NAME: usize = 1_024;

/// What a worker knows of a connection: who it is, whether it may ask, which database it has selected, and what
/// waits for EXEC.
#[derive(Drop)]
pub(crate) struct Connection {
    /// CLIENT ID: its number among all connections of the server.
    pub(crate) id: u64,
    /// Whether it is authenticated: it has logged in, or no password is set.
    pub(crate) is_authenticated: bool,
    /// The database that its commands are on.
    pub(crate) selected: Selection,
    /// The client's address, as the gateway wrote it; empty if memory was refused for it.
    pub(crate) address: Vec<u8>,
    /// CLIENT GETNAME; empty if it has no name.
    pub(crate) name: Vec<u8>,
    /// What waits for EXEC, after a MULTI. None if there was no MULTI.
    pub(crate) queue: Option<Queue>,
}

impl Connection {
    /// A new connection of the client at this address.
    pub(crate) fn new(
        alloc: Global,
        id: u64,
        is_authenticated: bool,
        address: Vec<u8>,
    ) -> Connection
        ensures is_authenticated { result.is_authenticated ≡ is_authenticated }
        ensures queue { result.queue ≡ None }
        ensures selected { result.selected ≡ first_selected }
    {
        Connection {
            id,
            is_authenticated,
            selected: Selection::Database(0),
            address,
            name: Vec::new(alloc),
            queue: None,
        }
    }

    /// How many bytes of memory it takes in addition to a fixed part.
    pub(crate) fn keeps(&self) -> usize {
        let queue = match &self.queue {
            Some(queue) => queue.bytes(),
            None => 0,
        };
        self.name.capacity().saturating_add(queue)
    }

    /// Names the connection, unless the name is too long. Returns whether it did. If memory is refused, the
    /// old name stays.
    pub(crate) fn set_name(&mut self, name: &[u8]) -> Result<bool, AllocError>
        ensures named { IfOk result (λ named. MatchBool named ((length name.now ≤ 1024) × (self.new.name.items ≡ name.now)) ((1024 < length name.now) × (self.new.name ≡ self.old.name))) }
        ensures kept { OnErr result (self.new.name ≡ self.old.name) }
        ensures is_authenticated { self.new.is_authenticated ≡ self.old.is_authenticated }
        ensures queue { self.new.queue ≡ self.old.queue }
        ensures selected { self.new.selected ≡ self.old.selected }
    {
        if name.len() > LONGEST_NAME {
            return Ok(false);
        }
        let mut own = Vec::new(*self.name.allocator());
        own.extend_from_slice(name)?;
        self.name = own;
        Ok(true)
    }
}
