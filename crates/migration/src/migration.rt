//! The pairs of objects in memory and on a device.
ghost use Rattle.std.specs.Prelude.{◌≡◌, ◌++◌, [], IfOk, OnOk, OnErr, IfErr, IfSome, IfNone};
ghost use Rattle.std.specs.List.Sorted.{IsPermutation};
ghost use Rattle.migration.specs.Parts.{Takes, Loses, IsUntaken};

use crate::fault::Untaken;
use crate::spool::take_object;
use far_device::{Device, DeviceFault};
use far_object::{FarObject, Memory, Object};
use std::alloc::Global;
use std::marker::Model;

/// Pairs in parts, each those of one object, in memory or on a device of its own. Contracts see the list of the pairs, whose
/// order is of no account.
#[derive(Drop)]
pub struct Migration<K: FarObject, V: FarObject, D: Device> {
    alloc: Global,
    near: Vec<Object<K, V>>,
    device: D,
    // The device has an object under each id below this one.
    far: u64,
}

impl<K: FarObject, V: FarObject, D: Device> Model for Migration<K, V, D> {
    ghost use Rattle.std.specs.Prelude.{List, ◌++◌};
    ghost use Rattle.migration.specs.Parts.{pairs_below, all_of};

    ghost Value = { List (K × V) };

    ghost view = { λ h. pairs_below K.enc V.enc K.dec V.dec (D.state h.device).contents h.far ++ all_of h.near.items };
}

impl<K: FarObject, V: FarObject, D: Device> Migration<K, V, D> {
    /// No pairs, over a device that is made empty. The fault is the device's, which is dropped then.
    pub fn over(alloc: Global, mut device: D) -> Result<Migration<K, V, D>, DeviceFault>
        ensures { IfOk result (λ migration. migration ≡ []) }
    {
        device.construct()?;
        Ok(Migration {
            alloc,
            near: Vec::new(alloc),
            device,
            far: 0,
        })
    }

    /// How many parts lie in memory.
    pub fn near_count(&self) -> usize {
        self.near.len()
    }

    /// How many parts lie on the device.
    pub fn far_count(&self) -> u64 {
        self.far
    }

    /// Adds the object's pairs, as a copy of its bytes in memory. `Memory` comes where a growth is refused.
    pub fn add_near(&mut self, object: &Object<K, V>) -> Result<(), Memory>
        ensures added { OnOk result (IsPermutation (self.old ++ object.now) self.new) }
        ensures refused { OnErr result (self.new ≡ self.old) }
    {
        if object.count() == 0 {
            return Ok(());
        }
        let bytes = Vec::from_slice(self.alloc, object.as_bytes())?;
        let Ok(copy) = Object::read(bytes) else {
            return Err(Memory);
        };
        self.near.push(copy)?;
        Ok(())
    }

    /// Adds the object's pairs, on the device; in memory where the device fails or has no id left. `Memory` comes where a
    /// growth is refused for that.
    pub fn add_far(&mut self, object: &Object<K, V>) -> Result<(), Memory>
        ensures added { OnOk result (IsPermutation (self.old ++ object.now) self.new) }
        ensures refused { OnErr result (self.new ≡ self.old) }
    {
        if object.count() == 0 {
            return Ok(());
        }
        let Some(next) = self.far.checked_add(1) else {
            return self.add_near(object);
        };
        match self.device.write(self.far, object.as_bytes()) {
            Ok(()) => {
                self.far = next;
                Ok(())
            }
            Err(_) => self.add_near(object),
        }
    }

    /// Takes a part out: one in memory, and where none is left there one on the device. None where no pair is left.
    ///
    /// After `Memory` everything is as before; after `Lost` the part is gone. What a device that is not honest gives in place
    /// of an object's bytes can be another object, whose pairs are then handed out.
    pub fn take(&mut self, alloc: Global) -> Option<Result<Vec<(K, V)>, Untaken>>
        ensures all { IfNone result (self.old ≡ []) }
        ensures none { IfNone result (self.new ≡ []) }
        ensures taken { IfSome result (λ answer. IfOk answer (λ pairs. Takes D.HONEST self.old self.new pairs.items)) }
        ensures untaken { IfSome result (λ answer. IfErr answer (λ why. IsUntaken why self.old self.new)) }
    {
        if let Some(object) = self.near.last() {
            let Ok(pairs) = object.entries(alloc) else {
                return Some(Err(Untaken::Memory));
            };
            self.near.pop();
            return Some(Ok(pairs));
        }
        let last = self.far.checked_sub(1)?;
        match take_object(alloc, &mut self.device, last) {
            Ok(pairs) => {
                self.far = last;
                Some(Ok(pairs))
            }
            Err(Untaken::Lost) => {
                self.far = last;
                Some(Err(Untaken::Lost))
            }
            Err(Untaken::Memory) => Some(Err(Untaken::Memory)),
        }
    }

    /// Lets the part go that `take` would take next, for which its memory was refused.
    pub fn pass_over(&mut self)
        ensures { Loses self.old self.new }
    {
        if self.near.pop().is_none() {
            self.far = self.far.saturating_sub(1);
        }
    }
}
