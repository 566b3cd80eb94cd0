//! Memory of objects that were let go, in which others are built.
//!
//! # Few, and none much too large
//!
//! A caller who builds an object for each that it lets go takes no memory for it, where it keeps what the old one lay in. What
//! is kept is bounded: a few buffers, none of which is very large, and of more the one that was kept first is given back. A
//! buffer is used again only where at most half of it stays empty, so that small objects don't hold large buffers.
//!
//! What a buffer held is of no account: it is emptied before it is handed out.
ghost use Rattle.std.specs.Prelude.{◌≡◌, ◌<◌, [], length, IfOk, IfSome};

use crate::fault::Memory;
use crate::object::Object;
use crate::traits::FarObject;
use arrayvec::ArrayVec;
use std::alloc::Global;
use std::marker::Model;

/// How many are kept at most.
const MOST_BUFFERS: usize = 4;

/// The most bytes of one that is kept.
const MOST_ROOM: usize = 65_536;

/// At most 4 buffers of objects that were let go, each of at most 65,536 bytes. Contracts see nothing of them: no object and
/// no answer depends on which there are.
#[derive(Drop)]
pub struct Buffers {
    // The one that was kept first lies first.
    kept: ArrayVec<Option<Vec<u8>>, 4>,
}

impl Model for Buffers {
    ghost Value = { Unit {0} };

    ghost view = { λ _. tt };
}

// Whether so many bytes fit, and take at least half of it.
fn fits(capacity: usize, len: usize) -> bool {
    len <= capacity && capacity / 2 <= len
}

// The first in which so many bytes fit.
fn position(kept: &[Option<Vec<u8>>], len: usize) -> Option<usize>
    ensures { IfSome result (λ i. i < length kept.now) }
{
    for (i, buffer) in kept.iter().enumerate() {
        if let Some(buffer) = buffer {
            if fits(buffer.capacity(), len) {
                return Some(i);
            }
        }
    }
    None
}

impl Buffers {
    /// No buffers.
    pub fn new() -> Buffers {
        Buffers {
            kept: ArrayVec::new(),
        }
    }

    /// Keeps the memory of an object for another one. A buffer that is too large is given back, and so is the one that was kept
    /// first where there are too many.
    pub fn keep<K: FarObject, V: FarObject>(&mut self, object: Object<K, V>) {
        let buffer = object.into_bytes();
        if buffer.capacity() > MOST_ROOM {
            return;
        }
        if self.kept.len() >= MOST_BUFFERS {
            drop(self.kept.remove(0));
        }
        self.kept.push(Some(buffer));
    }

    /// An empty list with room for so many bytes: one that was kept, where one is large enough, and else a new one of this size.
    /// `Memory` comes where that is refused.
    pub(crate) fn room(&mut self, alloc: Global, len: usize) -> Result<Vec<u8>, Memory>
        ensures { IfOk result (λ room. room.items ≡ []) }
    {
        if let Some(i) = position(self.kept.as_slice(), len) {
            if let Some(mut room) = self.kept.remove(i) {
                room.clear();
                return Ok(room);
            }
        }
        Ok(Vec::with_capacity(alloc, len)?)
    }
}
