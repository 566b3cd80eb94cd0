//! The last stage of a change. It installs what was made over the word that was seen, or checks that this
//! word is still there.
ghost use Rattle.std.specs.Prelude.{◌≡◌, ◌<◌, Some, IsTrue, IfOk, IfErr, length};
ghost use Rattle.far_object.specs.Buckets.{bucket};
ghost use Rattle.table_core.specs.BucketWords.{name_of};
ghost use Rattle.table_core.specs.Maps.{key_of, reply};
ghost use Rattle.table_core.specs.Lent.{lent};
ghost use Rattle.table_core.specs.Logs.{contents};
ghost use Rattle.table_core.specs.Lawful.{IsLawful};
ghost use Rattle.version_words.specs.Views.{Goes, WasSeen, operation_of, probed};
ghost use Rattle.hash_table.specs.Calls.{most_spares, AtMostOneMore, IsFinished};
ghost use Rattle.hash_table.specs.Changes.{MayChange, MayLeave, MayMake, Leaves, Fits};
ghost use Rattle.hash_table.specs.Stages.{IsUnpublished};
ghost use Rattle.hash_table.specs.Steps.{IsOfFrame, LeavesSpares, IsInstalled};

use crate::limbo::Limbo;
use crate::refusal::Refusal;
use crate::stages::build::Built;
use crate::table::FarTable;
use crate::traffic::Counted;
use far_device::Device;
use far_object::FarObject;
use table_core::Operation;
use version_words::{Change, Naming, Pass, Probe, seen_answers};

// The operation as it is installed.
fn change_of<'a, K, V>(operation: &Operation<&'a K, &'a V>) -> Change<'a, K, V>
    requires { MayChange (lent operation.now) }
    ensures { operation_of result ≡ Some (lent operation.now) }
{
    match operation {
        Operation::Put(key, value) => Change::Put(key, value),
        Operation::Get(_) => unreachable!(),
        Operation::Remove(key) => Change::Remove(key),
        Operation::PutIf(key, expected, value) => Change::PutIf(key, *expected, value),
    }
}

// The operation as a call that leaves its bucket.
fn probe_of<'a, K, V>(operation: &Operation<&'a K, &'a V>) -> Probe<'a, K, V>
    requires { MayLeave (lent operation.now) }
    ensures { probed result ≡ lent operation.now }
{
    match operation {
        Operation::Put(_, _) => unreachable!(),
        Operation::Get(key) => Probe::Get(key),
        Operation::Remove(key) => Probe::Remove(key),
        Operation::PutIf(key, expected, value) => Probe::PutIf(key, *expected, value),
    }
}

impl<K: FarObject, V: FarObject, J: Naming, D: Device> FarTable<K, V, J, D> {
    /// Installs what was built over the word that was seen. If nothing was built, it checks that the word is
    /// still there.
    pub(crate) fn settle<'a>(
        &self,
        pass: &mut Pass<K, V, J>,
        limbo: &mut Limbo<K, V, J>,
        b: u32,
        old: u64,
        built: Built<K, V>,
        operation: &Operation<&'a K, &'a V>,
    ) -> Result<Option<V>, Refusal>
        requires bucket { (b < J.limits.buckets) × (bucket K.enc J.limits.buckets (key_of (lent operation.now)) ≡ b) }
        requires lawful { IsLawful K.enc V.enc J.limits pass.old.front }
        requires seen { WasSeen K.enc J.limits.buckets pass.old.front b old }
        requires answer { IsTrue J.limits.honest → built.answer ≡ reply K.enc (contents pass.old.front (name_of old)) (lent operation.now) }
        requires object { IsTrue J.limits.honest → Leaves K.enc V.enc (contents pass.old.front (name_of old)) (lent operation.now) built.object }
        requires fits { Fits K.enc V.enc self.now.limit (lent operation.now) built.object }
        requires may { MayMake (lent operation.now) built.object }
        requires room { length limbo.old < most_spares }
        ensures lawful { IsLawful K.enc V.enc J.limits pass.new.front }
        ensures limbo { AtMostOneMore limbo.old limbo.new }
        ensures same { IfOk result (λ r. r ≡ built.answer) }
        ensures finished { IfOk result (λ r. IsFinished K.enc V.enc J.limits pass.old (lent operation.now) r pass.new) }
        ensures installed { IfOk result (λ _. IsInstalled K.enc V.enc J.limits self.now.limit self.now.frames b (lent operation.now) pass.old limbo.old pass.new limbo.new) }
        ensures goes { IfErr result (λ _. Goes pass.old pass.new) }
        ensures given_up { IfErr result (λ e. LeavesSpares (IsOfFrame self.now.frames b) limbo.old limbo.new e) }
        ensures why { IfErr result (λ e. IsUnpublished K.enc J.limits b old pass.old pass.new e) }
    {
        seen_answers::<K, V>();
        let Built {
            answer,
            object,
            replaced,
        } = built;
        limbo.count(Counted::read(old));
        let Some(object) = object else {
            return match self.words.check(pass, b, old, &probe_of(operation)) {
                Ok(()) => Ok(answer),
                Err(_) => Err(Refusal::Moved),
            };
        };
        let change = change_of(operation);
        if object.count() == 0 {
            return match self.publish_empty(pass, limbo, b, old, &object, &change) {
                Ok(()) => {
                    limbo.count(Counted::Replaced(replaced, 0));
                    Ok(answer)
                }
                Err(refusal) => Err(refusal),
            };
        }
        let length = object.as_bytes().len();
        match self.publish_local(pass, limbo, b, old, object, &change) {
            Ok(()) => {
                limbo.count(Counted::Replaced(replaced, length));
                Ok(answer)
            }
            Err((refusal, _)) => Err(refusal),
        }
    }
}
