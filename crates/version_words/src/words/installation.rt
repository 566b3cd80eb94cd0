//! New words, and calls that leave the word.
ghost use Rattle.std.specs.Prelude.{◌≡◌, ◌≢◌, ◌<◌, ◌^◌, [], IsTrue, IfOk, IfErr, Some, None, MatchResult};
ghost use mathlib.Core.List.{IsPrefix};
ghost use Rattle.table_core.specs.declared.event.Event.TheVariants.{Done};
ghost use Rattle.table_core.specs.BucketWords.{name_of, pack, empty_place};
ghost use Rattle.table_core.specs.Maps.{key_of};
ghost use Rattle.table_core.specs.Logs.{contents, word};
ghost use Rattle.table_core.specs.Lawful.{IsLawful};
ghost use Rattle.version_words.specs.Views.{Goes, Calls, MakesCall, WasSeen, Follows, IsOfBucket, changed, operation_of, installing, probed, ChangesNothing, spare_of, IsGone, has_object, MovesObject};

use super::Words;
use super::steps::{Check, Checking, Install, Installing};
use crate::change::{Change, Probe};
use crate::fault::Moved;
use crate::name::Name;
use crate::naming::Naming;
use crate::pass::Pass;
use crate::spare::Spare;
use crate::tally::Tally;
use far_object::FarObject;
use table_core::word::{EMPTY_PLACE, pack, place_of};

/// What an install leaves: the new word, and the old one where it has an object.
#[derive(Drop)]
pub struct Installed<K: FarObject, V: FarObject, J: Naming> {
    pub word: u64,
    pub spare: Option<Spare<K, V, J>>,
}

// Whether the word's place is a frame or the device.
fn has_object(word: u64) -> bool
    ensures { result ≡ has_object word }
{
    word != 0 && place_of(word) != EMPTY_PLACE
}

impl<K: FarObject, V: FarObject, J: Naming> Words<K, V, J> {
    /// Installs the name with this place where the bucket's word is still the old one.
    ///
    /// The pass has seen the old word there, and the name's contents are the old ones with the change. A move takes an
    /// object from the device to a frame or back. The pass learns the name's mark. `Moved` comes where another word stands there, and the name is handed back.
    pub fn install(
        &self,
        pass: &mut Pass<K, V, J>,
        b: u32,
        old: u64,
        name: Name<K, V, J>,
        place: u32,
        change: &Change<K, V>,
    ) -> Result<Installed<K, V, J>, (Moved, Name<K, V, J>)>
        requires bucket { (name.bucket ≡ b) × IsOfBucket K.enc J.limits.buckets b (operation_of change.now) }
        requires place { place < 2 ^ 24 }
        requires seen { WasSeen K.enc J.limits.buckets pass.old.front b old }
        requires newer { name_of old < name.number }
        requires empty { IsTrue J.limits.honest → place ≡ empty_place → contents name.front name.number ≡ [] }
        requires moves { MovesObject (operation_of change.now) old place }
        requires contents { IsTrue J.limits.honest → contents name.front name.number ≡ changed K.enc V.enc (contents pass.old.front (name_of old)) (operation_of change.now) }
        ensures pass { MatchResult result (λ _. MakesCall (operation_of change.now) pass.old pass.new) (λ _. Goes pass.old pass.new) }
        ensures named { IsPrefix name.front pass.new.front }
        ensures lawful { IsLawful K.enc V.enc J.limits pass.new.front }
        ensures word { IfOk result (λ i. i.word ≡ pack name.number place) }
        ensures follows { IfOk result (λ i. Follows K.enc J.limits.buckets pass.old.front b old (installing pass.old.number b i.word (operation_of change.now)) pass.new.front) }
        ensures stands { IfOk result (λ i. word K.enc J.limits.buckets pass.new.front b ≡ i.word) }
        ensures seen { IfOk result (λ i. WasSeen K.enc J.limits.buckets pass.new.front b i.word) }
        ensures spare { IfOk result (λ i. i.spare ≡ spare_of b old pass.new.front) }
        ensures gone { IfOk result (λ i. IsGone K.enc V.enc J.limits pass.new.front b old) }
        ensures moved { IfErr result (λ e. (e.1 ≡ name) × (word K.enc J.limits.buckets pass.new.front b ≢ old)) }
    {
        let Name {
            number,
            bucket,
            mark,
            mut right,
        } = name;
        pass.mark.learn(&mark);
        let word = pack(number, place);
        let asked = Install {
            pass: pass.number,
            bucket,
            word,
            change,
        };
        if !self.step::<Install<K, V>, Installing>(
            bucket as usize,
            old,
            word,
            &asked,
            &mut pass.mark,
            &mut pass.tally,
            &mut right,
        ) {
            let name = Name {
                number,
                bucket,
                mark,
                right,
            };
            return Err((Moved, name));
        }
        let spare = if has_object(old) {
            Some(Spare::replaced(old, bucket, pass.mark.again()))
        } else {
            None
        };
        Ok(Installed { word, spare })
    }

    /// Finds the word still there, and makes a call that leaves the bucket's contents.
    ///
    /// The pass has seen the word there. `Moved` comes where another word stands there.
    pub fn check(
        &self,
        pass: &mut Pass<K, V, J>,
        b: u32,
        old: u64,
        probe: &Probe<K, V>,
    ) -> Result<(), Moved>
        requires bucket { (b < J.limits.buckets) × IsOfBucket K.enc J.limits.buckets b (Some (probed probe.now)) }
        requires seen { WasSeen K.enc J.limits.buckets pass.old.front b old }
        requires nothing { IsTrue J.limits.honest → ChangesNothing K.enc V.enc (contents pass.old.front (name_of old)) (probed probe.now) }
        ensures pass { MatchResult result (λ _. Calls pass.old pass.new (probed probe.now)) (λ _. Goes pass.old pass.new) }
        ensures lawful { IsLawful K.enc V.enc J.limits pass.new.front }
        ensures follows { IfOk result (λ _. Follows K.enc J.limits.buckets pass.old.front b old (Done pass.old.number (probed probe.now) None) pass.new.front) }
        ensures stands { IfOk result (λ _. word K.enc J.limits.buckets pass.new.front b ≡ old) }
        ensures seen { IfOk result (λ _. WasSeen K.enc J.limits.buckets pass.new.front b old) }
        ensures moved { IfErr result (λ _. word K.enc J.limits.buckets pass.new.front b ≢ old) }
    {
        let mut none = Tally::none();
        let asked = Check {
            pass: pass.number,
            probe,
        };
        if !self.step::<Check<K, V>, Checking>(
            b as usize,
            old,
            old,
            &asked,
            &mut pass.mark,
            &mut pass.tally,
            &mut none,
        ) {
            return Err(Moved);
        }
        Ok(())
    }
}
