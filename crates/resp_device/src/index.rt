//! Which objects there are.
ghost use Rattle.std.specs.Prelude.{◌≡◌, [], Some, None, OnOk, OnErr, is_some};
ghost use Rattle.std.specs.FinMap.{len};
ghost use Rattle.std.specs.Option.{option_copied};
ghost use Rattle.resp_device.specs.Objects.{contents_of, kept_at, ChangesAt};

use crate::object_record::Kept;
use std::alloc::{AllocError, Global};
use std::collections::HashMap;

#[derive(Drop)]
pub(crate) struct Index {
    pub(crate) objects: HashMap<u64, Kept>,
}

impl Index {
    pub(crate) fn new(alloc: Global) -> Self
        ensures { result.objects.entries ≡ [] }
    {
        Index {
            objects: HashMap::new(alloc),
        }
    }

    /// How many objects there are.
    pub(crate) fn len(&self) -> usize
        ensures { result ≡ len (contents_of self.now.objects.entries) }
    {
        self.objects.len()
    }

    /// What is known of the object, if there is one.
    pub(crate) fn kept(&self, id: u64) -> Option<&Kept>
        ensures { option_copied result ≡ kept_at self.now.objects.entries id }
    {
        self.objects.get(&id)
    }

    /// Whether there is the object.
    pub(crate) fn has(&self, id: u64) -> bool
        ensures { result ≡ is_some (kept_at self.now.objects.entries id) }
    {
        self.objects.get(&id).is_some()
    }

    /// There is the object, in place of the one that the id had.
    pub(crate) fn enter(&mut self, id: u64, kept: Kept) -> Result<(), AllocError>
        ensures entered { OnOk result
            (ChangesAt self.old.objects.entries self.new.objects.entries id (Some kept)) }
        ensures refused { OnErr result (self.new.objects.entries ≡ self.old.objects.entries) }
    {
        match self.objects.insert(id, kept) {
            Ok(_) => Ok(()),
            Err(_) => Err(AllocError),
        }
    }

    /// The object is no more.
    pub(crate) fn remove(&mut self, id: u64)
        ensures { ChangesAt self.old.objects.entries self.new.objects.entries id None }
    {
        let _ = self.objects.remove(&id);
    }

    /// There are no objects.
    pub(crate) fn empty(&mut self)
        ensures { self.new.objects.entries ≡ [] }
    {
        self.objects.clear();
    }
}
