//! A word that its bucket doesn't hold and never will.
ghost use Rattle.std.specs.Prelude.{◌≡◌, ◌≢◌, ◌<◌};
ghost use mathlib.Core.List.{IsPrefix};
ghost use Rattle.table_core.specs.BucketWords.{name_of};
ghost use Rattle.table_core.specs.Logs.{word};
ghost use Rattle.table_core.specs.Lawful.{IsLawful};
ghost use Rattle.version_words.specs.Views.{IsGone};
ghost use Rattle.version_words.specs.Shuts.{IsShut};

use crate::mark::Mark;
use crate::naming::Naming;
use crate::pass::Pass;
use crate::shut_right::Shut;
use far_object::FarObject;
use std::marker::Model;

/// Why a word never comes into its bucket again.
#[derive(Drop)]
enum Reason {
    /// A newer word came after it.
    Replaced,
    /// Its name's right to be installed was given up.
    GivenUp(Shut),
}

/// A word that its bucket doesn't hold at the mark's front nor at any longer one, so that whoever holds it may reclaim
/// what the word says the place of. `Words::install` makes it of the old word and `Name::give_up` of the name, and nothing
/// else does. It can't be copied. Contracts see the word, its bucket and the front.
#[derive(Drop)]
pub struct Spare<K: FarObject, V: FarObject, J: Naming> {
    word: u64,
    bucket: u32,
    mark: Mark<K, V, J>,
    reason: Reason,
}

impl<K: FarObject, V: FarObject, J: Naming> Model for Spare<K, V, J> {
    ghost use Rattle.std.specs.Prelude.{◌<◌};
    ghost use Rattle.version_words.specs.Views.{SpareView};
    ghost use Rattle.version_words.specs.Shuts.{HasReason};

    ghost Value = { SpareView K V };

    ghost view = { λ s. record { word = s.word; bucket = s.bucket; front = s.mark } };

    ghost invariant = { λ s. (s.bucket < J.limits.buckets) × HasReason K.enc V.enc J.limits J.book J.names s.mark s.bucket s.word s.reason };
}

impl<K: FarObject, V: FarObject, J: Naming> Spare<K, V, J> {
    // The spare of a word after which a newer one came.
    pub(crate) fn replaced(word: u64, bucket: u32, mark: Mark<K, V, J>) -> Spare<K, V, J>
        requires here { bucket < J.limits.buckets }
        requires gone { IsGone K.enc V.enc J.limits mark bucket word }
        ensures { result ≡ record { word = word; bucket = bucket; front = mark } }
    {
        Spare {
            word,
            bucket,
            mark,
            reason: Reason::Replaced,
        }
    }

    // The spare of a word whose name's right is shut.
    pub(crate) fn given_up(
        word: u64,
        bucket: u32,
        mark: Mark<K, V, J>,
        shut: Shut,
    ) -> Spare<K, V, J>
        requires here { bucket < J.limits.buckets }
        requires shut { IsShut J.book J.names (name_of word) shut.book shut.board shut.key }
        ensures { result ≡ record { word = word; bucket = bucket; front = mark } }
    {
        Spare {
            word,
            bucket,
            mark,
            reason: Reason::GivenUp(shut),
        }
    }

    /// The word.
    pub fn word(&self) -> u64
        ensures { result ≡ self.now.word }
    {
        self.word
    }

    /// Its bucket.
    pub fn bucket(&self) -> u32
        ensures bucket { result ≡ self.now.bucket }
        ensures here { result < J.limits.buckets }
    {
        self.bucket
    }

    /// A mark of the front at which the bucket's word is another one.
    pub fn mark(&self) -> Mark<K, V, J>
        ensures front { result ≡ self.now.front }
        ensures lawful { IsLawful K.enc V.enc J.limits result }
        ensures gone { word K.enc J.limits.buckets self.now.front self.now.bucket ≢ self.now.word }
    {
        self.is_gone(&self.mark);
        self.mark.again()
    }

    /// A law, without a step: at the front of any pass that begins with the spare's, the bucket's word is another one.
    pub fn never(&self, pass: &Pass<K, V, J>)
        ensures gone { IsPrefix self.now.front pass.now.front → word K.enc J.limits.buckets pass.now.front self.now.bucket ≢ self.now.word }
    {
        self.is_gone(&pass.mark);
    }

    // The same at the front of any mark.
    fn is_gone(&self, mark: &Mark<K, V, J>)
        ensures gone { IsPrefix self.now.front mark.now → word K.enc J.limits.buckets mark.now self.now.bucket ≢ self.now.word }
    {
        match &self.reason {
            Reason::Replaced => {}
            Reason::GivenUp(shut) => shut.never(&mark.seen),
        }
    }
}
