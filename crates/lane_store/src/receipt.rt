//! What tells whose object a lane keeps.
ghost use Rattle.std.specs.Prelude.{◌≡◌};
ghost use Rattle.version_words.specs.Shown.{IsOwn};
ghost use Rattle.version_words.specs.Views.{name_of_parts};
ghost use Rattle.lane_store.specs.Lanes.{version_of};

use far_object::FarObject;
use std::marker::Model;
use version_words::{Mark, Naming};

/// Whose object a lane keeps: the number and the bucket of a name, and the mark of a log in which it was drawn. Contracts see
/// them as a name's.
#[derive(Drop)]
pub struct Receipt<K: FarObject, V: FarObject, J: Naming> {
    number: u64,
    bucket: u32,
    mark: Mark<K, V, J>,
}

impl<K: FarObject, V: FarObject, J: Naming> Model for Receipt<K, V, J> {
    ghost use Rattle.version_words.specs.Shown.{IsOwn};
    ghost use Rattle.version_words.specs.Views.{NameView, name_of_parts};
    ghost use Rattle.lane_store.specs.Lanes.{version_of};

    ghost Value = { NameView K V };

    ghost view = { λ r. name_of_parts r.number r.bucket r.mark };

    ghost invariant = { λ r. IsOwn K.enc V.enc J.limits (version_of (name_of_parts r.number r.bucket r.mark)) };
}

impl<K: FarObject, V: FarObject, J: Naming> Receipt<K, V, J> {
    /// Of the name of this number, which was drawn for the bucket in a log that begins with the mark.
    pub(crate) fn of(number: u64, bucket: u32, mark: &Mark<K, V, J>) -> Receipt<K, V, J>
        requires own { IsOwn K.enc V.enc J.limits (version_of (name_of_parts number bucket mark.now)) }
        ensures { result ≡ name_of_parts number bucket mark.now }
    {
        Receipt {
            number,
            bucket,
            mark: mark.again(),
        }
    }

    /// The number of the name.
    pub fn number(&self) -> u64
        ensures { result ≡ self.now.number }
    {
        self.number
    }

    /// The bucket that the name was drawn for.
    pub fn bucket(&self) -> u32
        ensures { result ≡ self.now.bucket }
    {
        self.bucket
    }

    /// The mark of a log in which the name was drawn. What was stored is the version that it was drawn for.
    pub fn mark(&self) -> &Mark<K, V, J>
        ensures front { result.now ≡ self.now.front }
        ensures own { IsOwn K.enc V.enc J.limits (version_of self.now) }
    {
        &self.mark
    }
}
