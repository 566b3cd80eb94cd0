//! A mark for each frame, as bits in words of 64.
ghost use Rattle.std.specs.Prelude.{◌≡◌, ◌<◌, true, false, length, replicate, set, IfOk};
ghost use Rattle.swapper.specs.Chances.{flag};

use std::alloc::{AllocError, Global};
use std::marker::Model;

// How many marks lie in a word.
const BITS: u32 = 64;

/// Marks of so many frames. Contracts see the list of them.
#[derive(Drop)]
pub(crate) struct Marks {
    words: Vec<u64>,
    count: u32,
}

impl Model for Marks {
    ghost use Rattle.std.specs.Prelude.{List, Bool, ◌≤◌, ◌*◌, vec_len};
    ghost use Rattle.swapper.specs.Marks.{marks_of};

    ghost Value = { List Bool };

    ghost view = { λ m. marks_of m.words.items m.count };

    ghost invariant = { λ m. m.count ≤ 64 * vec_len m.words };
}

impl Marks {
    /// No frame is marked.
    pub(crate) fn open(alloc: Global, count: u32) -> Result<Marks, AllocError>
        ensures { IfOk result (λ m. m ≡ replicate count false) }
    {
        let words = vec![in alloc; 0u64; (count / BITS + 1) as usize]?;
        Ok(Marks { words, count })
    }

    /// How many frames there are.
    pub(crate) fn count(&self) -> u32
        ensures { result ≡ length self.now }
    {
        self.count
    }

    /// Whether the frame is marked.
    pub(crate) fn is_marked(&self, frame: u32) -> bool
        requires { frame < length self.now }
        ensures { result ≡ flag self.now frame }
    {
        (self.words[(frame / BITS) as usize] >> (frame % BITS)) & 1 == 1
    }

    /// Marks the frame.
    pub(crate) fn set(&mut self, frame: u32)
        requires { frame < length self.old }
        ensures { self.new ≡ set self.old frame true }
    {
        self.words[(frame / BITS) as usize] |= 1u64 << (frame % BITS);
    }

    /// Takes the frame's mark.
    pub(crate) fn clear(&mut self, frame: u32)
        requires { frame < length self.old }
        ensures { self.new ≡ set self.old frame false }
    {
        self.words[(frame / BITS) as usize] &= !(1u64 << (frame % BITS));
    }
}
