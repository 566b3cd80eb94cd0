//! Which id has each slot.
ghost use Rattle.std.specs.Prelude.{◌≡◌, ◌≢◌, ◌≤◌, ◌<◌, ℕ, Some, OnOk, IfSome};
ghost use Rattle.file_device.specs.Owners.{owner_in, count_in};
ghost use Rattle.file_device.specs.declared.slot.Slot.{Slot};

use crate::Slot;
use crate::class::CLASSES;
use crate::ledger::Ledger;
use std::alloc::{AllocError, Global};
use std::array;

/// The ledgers of all classes.
#[derive(Drop)]
pub(crate) struct Owners {
    ledgers: [Ledger; CLASSES],
}

impl Owners {
    pub(crate) fn new(alloc: Global) -> Self {
        Owners {
            ledgers: array::from_fn(|_| Ledger::new(alloc)),
        }
    }

    /// The id that has the slot, if it is in use. If it is free, it may be any id or none.
    pub(crate) fn owner(&self, slot: Slot) -> Option<u64>
        requires { slot.class < 21 }
        ensures { result ≡ owner_in self.now.ledgers slot }
    {
        self.ledgers[slot.class as usize].entry(slot.number)
    }

    /// How many numbers the class has, in use or free.
    pub(crate) fn count(&self, class: u8) -> usize
        requires { class < 21 }
        ensures { result ≡ count_in self.now.ledgers class }
    {
        self.ledgers[class as usize].count()
    }

    /// Whether all numbers of the class are free.
    pub(crate) fn is_idle(&self, class: u8) -> bool
        requires { class < 21 }
    {
        self.ledgers[class as usize].is_idle()
    }

    /// The number of the class to take next. None if all are in use.
    pub(crate) fn next(&self, class: u8) -> Option<u32>
        requires { class < 21 }
        ensures { IfSome result (λ number. number ≤ count_in self.now.ledgers class) }
    {
        self.ledgers[class as usize].next()
    }

    /// Takes the slot for the id.
    pub(crate) fn take(&mut self, slot: Slot, id: u64) -> Result<(), AllocError>
        requires known { slot.class < 21 }
        requires next { slot.number ≤ count_in self.old.ledgers slot.class }
        ensures taken { OnOk result (owner_in self.new.ledgers slot ≡ Some id) }
        ensures others { (other : Slot) → other ≢ slot
            → owner_in self.new.ledgers other ≡ owner_in self.old.ledgers other }
    {
        self.ledgers[slot.class as usize].take(slot.number, id)
    }

    /// Frees the slot.
    pub(crate) fn give_back(&mut self, slot: Slot)
        requires { slot.class < 21 }
        ensures { (other : Slot) → other ≢ slot
            → owner_in self.new.ledgers other ≡ owner_in self.old.ledgers other }
    {
        self.ledgers[slot.class as usize].give_back(slot.number);
    }

    /// Forgets all numbers of the class.
    pub(crate) fn clear(&mut self, class: u8)
        requires { class < 21 }
        ensures { (other : Slot) → other.class ≢ class
            → owner_in self.new.ledgers other ≡ owner_in self.old.ledgers other }
    {
        self.ledgers[class as usize].clear();
    }
}
