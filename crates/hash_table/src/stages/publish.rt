//! A new object gets a name (a version number) and a place, and is installed over the word that was seen.
ghost use Rattle.std.specs.Prelude.{◌≡◌, ◌<◌, ℕ, [], ◌++◌, IsTrue, IfOk, IfErr, IfSome, length, option_to_list};
ghost use Rattle.table_core.specs.BucketWords.{name_of, place_of, empty_place};
ghost use Rattle.table_core.specs.Logs.{contents, word};
ghost use Rattle.table_core.specs.Lawful.{IsLawful};
ghost use Rattle.version_words.specs.Views.{Goes, MakesCall, WasSeen, Follows, IsOfBucket, operation_of, installing, changed, spare_of, MovesObject};
ghost use Rattle.hash_table.specs.Calls.{AtMostOneMore, IsRefused, IsFull, most_spares};
ghost use Rattle.hash_table.specs.Refusals.{OfSwapOut};
ghost use Rattle.hash_table.specs.Stages.{IsLocal, IsUndrawn, IsUnpublished, IsUntouched};
ghost use Rattle.hash_table.specs.Steps.{IsInFrame, IsOnDevice, IsOfFrame, IsOfDevice, FetchLeavesSpares, SwapLeavesSpares, IsUnswapped, IsMovedOver};

use crate::caller::Caller;
use crate::limbo::Limbo;
use crate::refusal::Refusal;
use crate::table::FarTable;
use crate::traffic::Counted;
use far_device::Device;
use far_object::{FarObject, Object};
use frame_cache::Version;
use lane_store::LaneFault;
use std::sync::Wait;
use table_core::word::{EMPTY_PLACE, FAR_PLACE};
use version_words::{Change, Moved, Name, NameFault, Naming, Pass, changes_fit, seen_stay};

impl<K: FarObject, V: FarObject, J: Naming, D: Device> FarTable<K, V, J, D> {
    /// Draws a name for what the change makes of the object under a word that was seen.
    pub(crate) fn draw(
        &self,
        pass: &mut Pass<K, V, J>,
        b: u32,
        old: u64,
        object: &Object<K, V>,
        change: &Change<'_, K, V>,
    ) -> Result<Name<K, V, J>, Refusal>
        requires bucket { (b < J.limits.buckets) × IsOfBucket K.enc J.limits.buckets b (operation_of change.now) }
        requires lawful { IsLawful K.enc V.enc J.limits pass.old.front }
        requires seen { WasSeen K.enc J.limits.buckets pass.old.front b old }
        requires contents { IsTrue J.limits.honest → object.now ≡ changed K.enc V.enc (contents pass.old.front (name_of old)) (operation_of change.now) }
        ensures pass { Goes pass.old pass.new }
        ensures lawful { IsLawful K.enc V.enc J.limits pass.new.front }
        ensures name { IfOk result (λ n. (n.bucket ≡ b) × (n.front ≡ pass.new.front)) }
        ensures newer { IfOk result (λ n. name_of old < n.number) }
        ensures object { IfOk result (λ n. contents n.front n.number ≡ object.now) }
        ensures seen { WasSeen K.enc J.limits.buckets pass.new.front b old }
        ensures contents { IfOk result (λ n. IsTrue J.limits.honest → contents n.front n.number ≡ changed K.enc V.enc (contents pass.new.front (name_of old)) (operation_of change.now)) }
        ensures why { IfErr result (λ e. IsUndrawn J.limits pass.old pass.new e) }
    {
        changes_fit::<K, V>();
        seen_stay::<K, V>();
        match self.words.name(pass, b, object) {
            Ok(name) => Ok(name),
            Err(NameFault::NamesSpent) => Err(Refusal::NamesSpent),
            Err(NameFault::Moved) => Err(Refusal::Moved),
        }
    }

    /// Puts the object into a frame under a new name, and installs it. If it gets no frame or no name, it
    /// returns the object.
    pub(crate) fn publish_local(
        &self,
        pass: &mut Pass<K, V, J>,
        limbo: &mut Limbo<K, V, J>,
        b: u32,
        old: u64,
        object: Object<K, V>,
        change: &Change<'_, K, V>,
    ) -> Result<(), (Refusal, Option<Object<K, V>>)>
        requires bucket { (b < J.limits.buckets) × IsOfBucket K.enc J.limits.buckets b (operation_of change.now) }
        requires lawful { IsLawful K.enc V.enc J.limits pass.old.front }
        requires seen { WasSeen K.enc J.limits.buckets pass.old.front b old }
        requires contents { IsTrue J.limits.honest → object ≡ changed K.enc V.enc (contents pass.old.front (name_of old)) (operation_of change.now) }
        requires moves { (frame : ℕ) → frame < empty_place → MovesObject (operation_of change.now) old frame }
        requires room { length limbo.old < most_spares }
        ensures lawful { IsLawful K.enc V.enc J.limits pass.new.front }
        ensures limbo { AtMostOneMore limbo.old limbo.new }
        ensures left { IfOk result (λ _. limbo.new ≡ limbo.old ++ option_to_list (spare_of b old pass.new.front)) }
        ensures given_up { IfErr result (λ e. FetchLeavesSpares (IsOfFrame self.now.frames b) pass.new.front limbo.old limbo.new e.0) }
        ensures made { IfOk result (λ _. MakesCall (operation_of change.now) pass.old pass.new) }
        ensures follows { IfOk result (λ _. (w : ℕ) × IsInFrame self.now.frames b w × Follows K.enc J.limits.buckets pass.old.front b old (installing pass.old.number b w (operation_of change.now)) pass.new.front) }
        ensures goes { IfErr result (λ _. Goes pass.old pass.new) }
        ensures untouched { IfErr result (λ e. IsUntouched pass.old pass.new e.0) }
        ensures why { IfErr result (λ e. IsUnpublished K.enc J.limits b old pass.old pass.new e.0) }
        ensures kept { IfErr result (λ e. IfSome e.1 (λ o. o ≡ object)) }
    {
        let Ok(reserved) = self.reserve(limbo) else {
            let _front = pass.mark();
            return Err((Refusal::NoFrame, Some(object)));
        };
        let name = match self.draw(pass, b, old, &object, change) {
            Ok(name) => name,
            Err(refusal) => {
                self.cancel(limbo, reserved);
                return Err((refusal, Some(object)));
            }
        };
        let frame = reserved.frame();
        reserved.fill(Version::new(&name, object));
        match self.words.install(pass, b, old, name, frame, change) {
            Ok(installed) => {
                limbo.keep(installed.spare);
                Ok(())
            }
            Err((Moved, name)) => {
                limbo.keep(Some(name.give_up(frame)));
                Err((Refusal::Moved, None))
            }
        }
    }

    /// Installs an object without pairs under a new name. It is not stored anywhere.
    pub(crate) fn publish_empty(
        &self,
        pass: &mut Pass<K, V, J>,
        limbo: &mut Limbo<K, V, J>,
        b: u32,
        old: u64,
        object: &Object<K, V>,
        change: &Change<'_, K, V>,
    ) -> Result<(), Refusal>
        requires bucket { (b < J.limits.buckets) × IsOfBucket K.enc J.limits.buckets b (operation_of change.now) }
        requires lawful { IsLawful K.enc V.enc J.limits pass.old.front }
        requires seen { WasSeen K.enc J.limits.buckets pass.old.front b old }
        requires contents { IsTrue J.limits.honest → object.now ≡ changed K.enc V.enc (contents pass.old.front (name_of old)) (operation_of change.now) }
        requires none { object.now ≡ [] }
        requires moves { MovesObject (operation_of change.now) old empty_place }
        requires room { length limbo.old < most_spares }
        ensures lawful { IsLawful K.enc V.enc J.limits pass.new.front }
        ensures limbo { AtMostOneMore limbo.old limbo.new }
        ensures left { IfOk result (λ _. limbo.new ≡ limbo.old ++ option_to_list (spare_of b old pass.new.front)) }
        ensures given_up { IfErr result (λ _. limbo.new ≡ limbo.old) }
        ensures made { IfOk result (λ _. MakesCall (operation_of change.now) pass.old pass.new) }
        ensures follows { IfOk result (λ _. (w : ℕ) × (place_of w ≡ empty_place) × Follows K.enc J.limits.buckets pass.old.front b old (installing pass.old.number b w (operation_of change.now)) pass.new.front) }
        ensures goes { IfErr result (λ _. Goes pass.old pass.new) }
        ensures why { IfErr result (λ e. IsUnpublished K.enc J.limits b old pass.old pass.new e) }
    {
        let name = match self.draw(pass, b, old, object, change) {
            Ok(name) => name,
            Err(refusal) => return Err(refusal),
        };
        match self.words.install(pass, b, old, name, EMPTY_PLACE, change) {
            Ok(installed) => {
                limbo.keep(installed.spare);
                Ok(())
            }
            Err((Moved, name)) => {
                // It is not stored anywhere, so there is nothing to reclaim.
                drop(name.give_up(EMPTY_PLACE));
                Err(Refusal::Moved)
            }
        }
    }

    /// Writes the object of a word in its frame to the device under a new name, and installs that.
    pub(crate) fn publish_far<R: Wait>(
        &self,
        rt: &R,
        caller: &mut Caller<K, V, J>,
        b: u32,
        old: u64,
        frame: u32,
    ) -> Result<(), Refusal>
        requires bucket { b < J.limits.buckets }
        requires lawful { IsLawful K.enc V.enc J.limits caller.old.pass.front }
        requires seen { WasSeen K.enc J.limits.buckets caller.old.pass.front b old }
        requires stands { old ≡ word K.enc J.limits.buckets caller.old.pass.front b }
        requires local { IsLocal old × (place_of old ≡ frame) }
        requires room { length caller.old.limbo < most_spares }
        ensures lawful { IsLawful K.enc V.enc J.limits caller.new.pass.front }
        ensures goes { Goes caller.old.pass caller.new.pass }
        ensures limbo { AtMostOneMore caller.old.limbo caller.new.limbo }
        ensures moved { IfOk result (λ _. IsMovedOver K.enc J.limits b (λ p. p ≡ frame) (IsOnDevice self.now.format b) caller.old.pass caller.old.limbo caller.new.pass caller.new.limbo) }
        ensures given_up { IfErr result (λ e. SwapLeavesSpares (IsOfDevice b) caller.new.pass.front caller.old.limbo caller.new.limbo e) }
        ensures refused { IfErr result (λ e. IsRefused K.enc V.enc J.limits b caller.old.pass caller.new.pass e) }
        ensures full { IfErr result (λ e. IsFull e (length caller.old.limbo)) }
        ensures only { IfErr result (λ e. OfSwapOut e) }
        ensures unmoved { IfErr result (λ e. IsUnswapped K.enc J.limits b frame caller.new.pass.front e) }
    {
        let Ok(scope) = self.enter_frame(&caller.pass, b, old, frame) else {
            let _front = caller.pass.mark();
            return Err(Refusal::Missed);
        };
        let name = match self.draw(&mut caller.pass, b, old, scope.object(), &Change::Move) {
            Ok(name) => name,
            Err(refusal) => {
                scope.close();
                return Err(refusal);
            }
        };
        let written = self.lanes.write(rt, &name, scope.object(), self.format);
        let length = scope.object().as_bytes().len();
        scope.close();
        match written {
            Ok(()) => {}
            Err(LaneFault::Memory) => {
                caller.limbo.keep(Some(name.give_up(FAR_PLACE)));
                return Err(Refusal::Memory);
            }
            Err(LaneFault::Device) => {
                caller.limbo.keep(Some(name.give_up(FAR_PLACE)));
                caller.limbo.count(Counted::Refused(Refusal::Device));
                return Err(Refusal::Device);
            }
        }
        match self
            .words
            .install(&mut caller.pass, b, old, name, FAR_PLACE, &Change::Move)
        {
            Ok(installed) => {
                caller.limbo.keep(installed.spare);
                caller.limbo.count(Counted::SwapOut(length));
                Ok(())
            }
            Err((Moved, name)) => {
                caller.limbo.keep(Some(name.give_up(FAR_PLACE)));
                Err(Refusal::Moved)
            }
        }
    }
}
