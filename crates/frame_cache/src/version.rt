//! The contents of a bucket under one name.
ghost use Rattle.std.specs.Prelude.{◌≡◌, ◌<◌};
ghost use Rattle.table_core.specs.Logs.{contents};
ghost use Rattle.version_words.specs.Shown.{shown, IsOwn};
ghost use Rattle.frame_cache.specs.Slots.{IsOfVersion};

use far_object::{FarObject, Object};
use std::marker::Model;
use version_words::{Mark, Name, Naming};

/// The contents of a bucket under one name, which never change. It is the object of its naming: what the name was drawn
/// for in the log of its mark.
///
/// It can be neither copied nor dropped: it goes into a frame (`Reserved::fill`), and `laws::retire` ends it.
pub struct Version<K: FarObject, V: FarObject, J: Naming> {
    // What a reader asks stands in front: with the frame's word it fills the first 48 of a frame's 64 bytes.
    pub(crate) name: u64,
    pub(crate) object: Object<K, V>,
    pub(crate) bucket: u32,
    pub(crate) mark: Mark<K, V, J>,
}

impl<K: FarObject, V: FarObject, J: Naming> Model for Version<K, V, J> {
    ghost use Rattle.version_words.specs.Shown.{Shown, shown, IsOwn};

    ghost Value = { Shown K V };

    ghost view = { λ v. shown v.object v.bucket v.name v.mark };

    ghost invariant = { λ v. IsOwn K.enc V.enc J.limits (shown v.object v.bucket v.name v.mark) };
}

impl<K: FarObject, V: FarObject, J: Naming> Version<K, V, J> {
    /// The version of a name with the object that it was drawn for.
    pub fn new(name: &Name<K, V, J>, object: Object<K, V>) -> Version<K, V, J>
        requires object { contents name.now.front name.now.number ≡ object }
        ensures version { result ≡ shown object name.now.bucket name.now.number name.now.front }
    {
        Version {
            object,
            bucket: name.bucket(),
            name: name.number(),
            mark: name.mark(),
        }
    }

    /// The object.
    pub fn object(&self) -> &Object<K, V>
        ensures object { result.now ≡ self.now.object }
        ensures own { IsOwn K.enc V.enc J.limits self.now }
    {
        &self.object
    }

    /// The bucket.
    pub fn bucket(&self) -> u32
        ensures { result ≡ self.now.bucket }
    {
        self.bucket
    }

    /// The name.
    pub fn name(&self) -> u64
        ensures { result ≡ self.now.name }
    {
        self.name
    }

    // The bucket and the name: of which naming this is the object.
    pub(crate) fn naming(&self) -> (u32, u64)
        ensures bucket { result.0 < J.limits.buckets }
        ensures own { IsOfVersion K.enc V.enc J.limits result.0 result.1 }
    {
        (self.bucket, self.name)
    }

    /// The mark of the log in which the name was drawn.
    pub fn mark(&self) -> &Mark<K, V, J>
        ensures mark { result.now ≡ self.now.mark }
        ensures own { IsOwn K.enc V.enc J.limits self.now }
    {
        &self.mark
    }
}

/// A version in its frame. A table that ends drops what lies in its frames, so this can be dropped.
pub(crate) struct Lodged<K: FarObject, V: FarObject, J: Naming> {
    pub(crate) version: Version<K, V, J>,
}

impl<K: FarObject, V: FarObject, J: Naming> Model for Lodged<K, V, J> {
    ghost use Rattle.version_words.specs.Shown.{Shown};

    ghost Value = { Shown K V };

    ghost view = { λ l. l.version };
}

impl<K: FarObject, V: FarObject, J: Naming> Lodged<K, V, J> {
    // The version that was taken out.
    pub(crate) fn into_version(self) -> Version<K, V, J>
        ensures { result ≡ self }
    {
        let Lodged { version } = self;
        version
    }
}

impl<K: FarObject, V: FarObject, J: Naming> Drop for Lodged<K, V, J> {
    fn drop(self) {
        let Lodged { version } = self;
        let Version {
            object: _,
            bucket: _,
            name: _,
            mark: _,
        } = version;
    }
}
