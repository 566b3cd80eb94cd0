//! Counts of what a caller's calls read, moved and keep in frames. They are hints: no contract says anything
//! about them.

use crate::refusal::Refusal;
use crate::stages::seen::{Place, split};

/// What a caller's calls did since it entered. A call of several rounds counts in each. For example, a get
/// that fetches its object counts as a far read, and then as a local one when it reads the frame.
#[derive(Clone, Copy, Debug, Default, PartialEq, Eq)]
pub struct Traffic {
    /// How often a get, a scope, a change or a read of a whole bucket found the bucket empty, or read its
    /// object in a frame.
    pub local_reads: u64,
    /// How often one of these, or a swap-in, read the object from a device.
    pub far_reads: u64,
    /// Swap-ins that brought an object into a frame.
    pub swap_ins: u64,
    /// Swap-outs that brought an object to a device.
    pub swap_outs: u64,
    /// Calls that were refused because a device failed, and spares (retired words) that were returned for
    /// that reason.
    pub device_failures: u64,
    /// Bytes of objects in frames, as far as words name them: what this caller's calls brought there, less
    /// what they moved out or replaced, whoever had brought it.
    ///
    /// So it can be less than 0. At rest the sum over all callers that ever entered is what frames hold. An
    /// old version that waits to be reclaimed is not counted.
    pub bytes: i64,
}

/// What is counted.
#[derive(Clone, Copy)]
pub(crate) enum Counted {
    LocalRead,
    FarRead,
    Refused(Refusal),
    /// An object of this many bytes came into a frame.
    SwapIn(usize),
    /// An object of this many bytes left its frame.
    SwapOut(usize),
    /// In frames, objects of the first number of bytes were replaced by objects of the second.
    Replaced(usize, usize),
}

impl Counted {
    /// A read of the object under this word.
    pub(crate) fn read(word: u64) -> Counted {
        match split(word) {
            Place::Device => Counted::FarRead,
            Place::Nothing | Place::Frame(_) => Counted::LocalRead,
        }
    }
}

impl Traffic {
    pub(crate) fn count(&mut self, counted: Counted) {
        match counted {
            Counted::LocalRead => self.local_reads = self.local_reads.wrapping_add(1),
            Counted::FarRead => self.far_reads = self.far_reads.wrapping_add(1),
            Counted::Refused(Refusal::Device) => {
                self.device_failures = self.device_failures.wrapping_add(1);
            }
            Counted::Refused(_) => {}
            Counted::SwapIn(came) => {
                self.swap_ins = self.swap_ins.wrapping_add(1);
                self.replace(0, came);
            }
            Counted::SwapOut(left) => {
                self.swap_outs = self.swap_outs.wrapping_add(1);
                self.replace(left, 0);
            }
            Counted::Replaced(old, new) => self.replace(old, new),
        }
    }

    fn replace(&mut self, old: usize, new: usize) {
        let less = self.bytes.saturating_sub_unsigned(old as u64);
        self.bytes = less.saturating_add_unsigned(new as u64);
    }
}
