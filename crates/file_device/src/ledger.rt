//! Which id has each slot of one class, and which slots are free.
ghost use Rattle.std.specs.Prelude.{◌≡◌, ◌≢◌, ◌≤◌, ◌<◌, ℕ, Some, None, OnOk, OnErr, IfSome};
ghost use Rattle.file_device.specs.Ledgers.{entry_at, count_of};

use std::alloc::{AllocError, Global};

/// The end of the list of free numbers. It is no number of a slot.
const LAST: u64 = u64::MAX;

/// The numbers of a class's slots, with 8 bytes for each.
///
/// The entry of a number in use is the id that took it. The entry of a free number is the number that
/// was freed before it, so the free numbers form a list. Nobody relies on the entry of a free number.
/// Before a number is taken, the index is asked whether an object is there.
#[derive(Drop)]
pub(crate) struct Ledger {
    entries: Vec<u64>,
    // The number that was freed last, or `LAST`.
    back: u64,
    // How many numbers are in use.
    out: u64,
}

impl Ledger {
    pub(crate) fn new(alloc: Global) -> Self {
        Ledger {
            entries: Vec::new(alloc),
            back: LAST,
            out: 0,
        }
    }

    /// The entry of the number: the id that has it, if it is in use.
    pub(crate) fn entry(&self, number: u32) -> Option<u64>
        ensures { result ≡ entry_at self.now number }
    {
        self.entries.get(number as usize).copied()
    }

    /// How many numbers there are, in use or free.
    pub(crate) fn count(&self) -> usize
        ensures { result ≡ count_of self.now }
    {
        self.entries.len()
    }

    /// Whether all numbers are free.
    pub(crate) fn is_idle(&self) -> bool {
        self.out == 0
    }

    /// The number that was freed last, or the next new one. None if all 2^32 are in use.
    pub(crate) fn next(&self) -> Option<u32>
        ensures { IfSome result (λ number. number ≤ count_of self.now) }
    {
        match u32::try_from(self.back) {
            Ok(number) if (number as usize) < self.entries.len() => Some(number),
            _ => u32::try_from(self.entries.len()).ok(),
        }
    }

    /// Takes the number for the id.
    pub(crate) fn take(&mut self, number: u32, id: u64) -> Result<(), AllocError>
        requires { number ≤ count_of self.old }
        ensures taken { OnOk result (entry_at self.new number ≡ Some id) }
        ensures others { (other : ℕ) → other ≢ number → entry_at self.new other ≡ entry_at self.old other }
    {
        match self.entries.get(number as usize) {
            Some(before) => {
                self.back = *before;
                self.entries[number as usize] = id;
            }
            None => self.entries.push(id)?,
        }
        self.out = self.out.saturating_add(1);
        Ok(())
    }

    /// Frees the number.
    pub(crate) fn give_back(&mut self, number: u32)
        ensures { (other : ℕ) → other ≢ number → entry_at self.new other ≡ entry_at self.old other }
    {
        if (number as usize) < self.entries.len() {
            self.entries[number as usize] = self.back;
            self.back = u64::from(number);
            self.out = self.out.saturating_sub(1);
        }
    }

    /// Forgets all numbers.
    pub(crate) fn clear(&mut self) {
        self.entries.clear();
        self.back = LAST;
        self.out = 0;
    }
}
