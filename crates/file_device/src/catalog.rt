//! Which object is in which slot.
ghost use Rattle.std.specs.Prelude.{◌≡◌, ◌<◌, [], Some, None, OnOk, OnErr, IfOk, IfSome, is_some};
ghost use Rattle.std.specs.Bool.{OnTrue};
ghost use Rattle.std.specs.FinMap.{len};
ghost use Rattle.std.specs.Option.{option_copied};
ghost use Rattle.file_device.specs.Owners.{owner_in};
ghost use Rattle.file_device.specs.Places.{contents_of, place_of, slot_of, AreOwned, ChangesAt, Unlabels, IsFree, IsUnused};

use crate::Slot;
use crate::owners::Owners;
use crate::place::Place;
use std::alloc::{AllocError, Global};
use std::collections::HashMap;

/// The index of the objects, and the owner of each slot.
///
/// A slot in use has its object's id as its owner, so no slot is used twice. The owner of a free slot
/// may be any id. So the index decides whether a slot is free.
#[derive(Drop)]
pub(crate) struct Catalog {
    pub(crate) index: HashMap<u64, Place>,
    pub(crate) owners: Owners,
    ghost owned: { AreOwned index.entries owners.ledgers },
}

impl Catalog {
    pub(crate) fn new(alloc: Global) -> Self
        ensures { result.index.entries ≡ [] }
    {
        Catalog {
            index: HashMap::new(alloc),
            owners: Owners::new(alloc),
        }
    }

    /// How many objects there are.
    pub(crate) fn len(&self) -> usize
        ensures { result ≡ len (contents_of self.now.index.entries) }
    {
        self.index.len()
    }

    /// The object's place, if there is such an object.
    pub(crate) fn place(&self, id: u64) -> Option<&Place>
        ensures { option_copied result ≡ place_of self.now.index.entries id }
    {
        self.index.get(&id)
    }

    /// Whether no object is in the slot.
    fn is_free(&self, slot: Slot) -> bool
        requires { slot.class < 21 }
        ensures { OnTrue result (IsFree self.now.index.entries slot) }
    {
        let Some(owner) = self.owners.owner(slot) else {
            return true;
        };
        match self.index.get(&owner) {
            Some(place) => place.slot() != slot,
            None => true,
        }
    }

    /// Takes a free slot of the class for the id. None if all are in use.
    pub(crate) fn take(&mut self, class: u8, id: u64) -> Result<Option<Slot>, AllocError>
        requires { class < 21 }
        ensures class { IfOk result (λ found. IfSome found (λ slot. slot.class ≡ class)) }
        ensures free { IfOk result (λ found. IfSome found (λ slot.
            IsFree self.old.index.entries slot)) }
        ensures owned { IfOk result (λ found. IfSome found (λ slot.
            owner_in self.new.owners.ledgers slot ≡ Some id)) }
        ensures same { self.new.index.entries ≡ self.old.index.entries }
    {
        let Some(number) = self.owners.next(class) else {
            return Ok(None);
        };
        let slot = Slot { class, number };
        if !self.is_free(slot) {
            return Ok(None);
        }
        self.owners.take(slot, id)?;
        Ok(Some(slot))
    }

    /// Frees a slot that was taken for the id. No object may be in it any more.
    ///
    /// Only the contract uses the id: it excludes that a slot is freed twice.
    pub(crate) fn give_back(&mut self, slot: Slot, _id: u64)
        requires known { slot.class < 21 }
        requires free { IsFree self.old.index.entries slot }
        requires owned { owner_in self.old.owners.ledgers slot ≡ Some _id }
        ensures { self.new.index.entries ≡ self.old.index.entries }
    {
        self.owners.give_back(slot);
    }

    /// Enters the object's place in the index. Returns the slot of the id's earlier object, which is
    /// free then.
    pub(crate) fn enter(&mut self, id: u64, place: Place) -> Result<Option<Slot>, AllocError>
        requires free { IsFree self.old.index.entries (slot_of place) }
        requires owned { owner_in self.old.owners.ledgers (slot_of place) ≡ Some id }
        ensures entered { OnOk result
            (ChangesAt self.old.index.entries self.new.index.entries id (Some place)) }
        ensures refused { OnErr result (self.new.index.entries ≡ self.old.index.entries) }
        ensures known { IfOk result (λ left. IfSome left (λ slot. slot.class < 21)) }
        ensures left { IfOk result (λ left. IfSome left (λ slot.
            IsFree self.new.index.entries slot)) }
        ensures leaver { IfOk result (λ left. IfSome left (λ slot.
            owner_in self.new.owners.ledgers slot ≡ Some id)) }
        ensures same_owners { self.new.owners ≡ self.old.owners }
    {
        match self.index.insert(id, place) {
            Ok(Some(before)) => Ok(Some(before.slot())),
            Ok(None) => Ok(None),
            Err(_) => Err(AllocError),
        }
    }

    /// Takes the object out of the index. Returns its slot, if there was such an object.
    pub(crate) fn remove(&mut self, id: u64) -> Option<Slot>
        ensures found { is_some result ≡ is_some (place_of self.old.index.entries id) }
        ensures removed { ChangesAt self.old.index.entries self.new.index.entries id None }
        ensures known { IfSome result (λ slot. slot.class < 21) }
        ensures left { IfSome result (λ slot. IsFree self.new.index.entries slot) }
        ensures leaver { IfSome result (λ slot. owner_in self.new.owners.ledgers slot ≡ Some id) }
    {
        match self.index.remove(&id) {
            Some(place) => Some(place.slot()),
            None => None,
        }
    }

    /// Removes the object's label, if there is such an object.
    pub(crate) fn unlabel(&mut self, id: u64)
        ensures { Unlabels self.old.index.entries self.new.index.entries id }
    {
        if let Some(place) = self.index.get_mut(&id) {
            place.label = None;
        }
    }

    /// Takes all objects out of the index.
    pub(crate) fn empty(&mut self)
        ensures { self.new.index.entries ≡ [] }
    {
        self.index.clear();
    }

    /// Whether no object is in a slot of the class.
    ///
    /// The slots are looked at only if as many were freed as were taken. So no slot is looked at more
    /// often than it was taken.
    pub(crate) fn is_idle(&self, class: u8) -> bool
        requires { class < 21 }
        ensures { OnTrue result (IsUnused self.now.index.entries class) }
    {
        self.owners.is_idle(class) && self.is_unused(class)
    }

    fn is_unused(&self, class: u8) -> bool
        requires { class < 21 }
        ensures { OnTrue result (IsUnused self.now.index.entries class) }
    {
        for place in 0..self.owners.count(class) {
            let Ok(number) = u32::try_from(place) else {
                return false;
            };
            if !self.is_free(Slot { class, number }) {
                return false;
            }
        }
        true
    }

    /// Forgets all slots of a class without objects. Its numbers begin at 0 again.
    pub(crate) fn clear(&mut self, class: u8)
        requires known { class < 21 }
        requires unused { IsUnused self.old.index.entries class }
        ensures { self.new.index.entries ≡ self.old.index.entries }
    {
        self.owners.clear(class);
    }
}
