//! Large requests take turns, so that only one worker at a time has the memory for one.
//!
//! Each worker has the memory for a small request. A large request takes several times its bytes: for its
//! value, and for its bucket before and after. If each worker had that much, little of a small server's
//! memory would be left.
//!
//! A small request may ask for a large value too. If there is not the memory for one in each worker, all
//! requests take turns: `ServerSettings::large` is 0 then.

use std::sync::{Mutex, MutexGuard, Wait};

/// A buffer with room for more bytes than this is given back after a request.
pub(crate) const LARGE: usize = 1 << 16;

/// The turn: a lock, which the worker holds that answers a large request.
#[derive(Drop)]
pub(crate) struct Turns {
    turn: Mutex<()>,
}

impl Turns {
    pub(crate) fn new() -> Turns {
        Turns {
            turn: Mutex::new(()),
        }
    }

    /// Waits for the turn if `bytes` is more than `most`, and returns a guard that holds it. Returns none if
    /// no turn is needed.
    pub(crate) fn take<R: Wait>(
        &self,
        rt: &R,
        bytes: usize,
        most: u32,
    ) -> Option<MutexGuard<'_, ()>> {
        if bytes > most as usize {
            Some(self.turn.lock(rt))
        } else {
            None
        }
    }
}
