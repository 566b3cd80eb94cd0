//! Visits: all pairs, bucket after bucket, or those of one bucket.
ghost use Rattle.std.specs.Prelude.{◌≡◌, ◌<◌, IfOk, IfErr};
ghost use Rattle.std.specs.List.{FoldsTo};
ghost use Rattle.version_words.specs.Views.{Goes};
ghost use Rattle.far_map.specs.Refusals.{IsUnread};
ghost use Rattle.far_map.specs.Visits.{AreOfBucket, IsBucketVisit, IsVisit};

use crate::map::FarMap;
use crate::refusal::{MapRefusal, said};
use crate::session::Session;
use crate::upkeep::SessionState;
use crate::values::Value;
use far_device::Device;
use far_object::Text;
use hash_table::{Caller, FarTable, Refusal as TableRefusal};
use std::alloc::Global;
use std::sync::Wait;
use swapper::QueueNaming;
use version_words::Naming;

/// Copies the pairs of a bucket. If its object moved meanwhile it is read again.
fn copy_bucket<V: Value, J: Naming, D: Device, R: Wait>(
    rt: &R,
    alloc: Global,
    table: &FarTable<Text, V, J, D>,
    caller: &mut Caller<Text, V, J>,
    bucket: u32,
) -> Result<Vec<(Text, V)>, MapRefusal>
    requires bucket { bucket < J.limits.buckets }
    ensures goes { Goes caller.old.pass caller.new.pass }
    ensures limbo { caller.new.limbo ≡ caller.old.limbo }
    ensures pairs { IfOk result (λ v. AreOfBucket V.enc J.limits bucket caller.new.pass v.items) }
    ensures why { IfErr result (IsUnread J.limits.honest) }
{
    for _ in rt.forever() {
        match table.pairs_in(rt, alloc, caller, bucket) {
            Ok(pairs) => return Ok(pairs),
            Err(TableRefusal::Missed) => {}
            Err(refusal) => return Err(said(refusal)),
        }
    }
    unreachable!()
}

/// Hands each pair to the visitor.
fn hand_over<V: Value, F: FnMut(Text, V)>(pairs: Vec<(Text, V)>, visit: &mut F)
    requires { F.IsAlwaysCallable visit.old }
    ensures handed { FoldsTo (λ f pair g. F.step f pair.0 pair.1 tt g) visit.old pairs.items visit.new }
    ensures again { F.IsAlwaysCallable visit.new }
{
    for (key, value) in pairs {
        visit(key, value);
    }
}

/// Hands each pair of a bucket to the visitor.
fn visit_bucket<V: Value, J: Naming, D: Device, F: FnMut(Text, V), R: Wait>(
    rt: &R,
    alloc: Global,
    table: &FarTable<Text, V, J, D>,
    caller: &mut Caller<Text, V, J>,
    bucket: u32,
    visit: &mut F,
) -> Result<(), MapRefusal>
    requires bucket { bucket < J.limits.buckets }
    requires callable { F.IsAlwaysCallable visit.old }
    ensures visits { IsBucketVisit V.enc J.limits bucket (λ pairs. FoldsTo (λ f pair g. F.step f pair.0 pair.1 tt g) visit.old pairs visit.new) caller.new.pass result }
    ensures again { F.IsAlwaysCallable visit.new }
    ensures goes { Goes caller.old.pass caller.new.pass }
{
    let pairs = match copy_bucket(rt, alloc, table, caller, bucket) {
        Ok(pairs) => pairs,
        Err(refusal) => return Err(refusal),
    };
    hand_over(pairs, visit);
    Ok(())
}

/// Hands each pair of the table to the visitor, one bucket after another.
fn visit_buckets<V: Value, J: Naming, D: Device, F: FnMut(Text, V), R: Wait>(
    rt: &R,
    alloc: Global,
    table: &FarTable<Text, V, J, D>,
    caller: &mut Caller<Text, V, J>,
    buckets: u32,
    visit: &mut F,
) -> Result<(), MapRefusal>
    requires all { buckets ≡ J.limits.buckets }
    requires callable { F.IsAlwaysCallable visit.old }
    ensures visits { IsVisit V.enc J.limits (λ pairs. FoldsTo (λ f pair g. F.step f pair.0 pair.1 tt g) visit.old pairs visit.new) caller.old.pass caller.new.pass result }
    ensures goes { Goes caller.old.pass caller.new.pass }
    ensures limbo { caller.new.limbo ≡ caller.old.limbo }
{
    for bucket in 0..buckets {
        match copy_bucket(rt, alloc, table, caller, bucket) {
            Ok(pairs) => hand_over(pairs, visit),
            Err(refusal) => return Err(refusal),
        }
    }
    Ok(())
}

/// The same for a map.
fn visit_map<V: Value, J: Naming, B: QueueNaming, D: Device, F: FnMut(Text, V), R: Wait>(
    rt: &R,
    alloc: Global,
    map: &FarMap<V, J, B, D>,
    session_state: &mut SessionState<V, J, B>,
    visit: &mut F,
) -> Result<(), MapRefusal>
    requires { F.IsAlwaysCallable visit.old }
    ensures visits { IsVisit V.enc J.limits (λ pairs. FoldsTo (λ f pair g. F.step f pair.0 pair.1 tt g) visit.old pairs visit.new) session_state.old.caller.pass session_state.new.caller.pass result }
    ensures goes { Goes session_state.old.caller.pass session_state.new.caller.pass }
{
    visit_buckets(
        rt,
        alloc,
        &map.table,
        &mut session_state.caller,
        map.buckets,
        visit,
    )
}

impl<'m, V: Value, J: Naming, B: QueueNaming, D: Device> Session<'m, V, J, B, D> {
    /// Hands each pair of a bucket to the visitor.
    pub(crate) fn visit_one<F: FnMut(Text, V), R: Wait>(
        &mut self,
        rt: &R,
        bucket: u32,
        visit: &mut F,
    ) -> Result<(), MapRefusal>
        requires bucket { bucket < J.limits.buckets }
        requires callable { F.IsAlwaysCallable visit.old }
        ensures visits { IsBucketVisit V.enc J.limits bucket (λ pairs. FoldsTo (λ f pair g. F.step f pair.0 pair.1 tt g) visit.old pairs visit.new) self.new.pass result }
        ensures again { F.IsAlwaysCallable visit.new }
        ensures goes { Goes self.old.pass self.new.pass }
        ensures same { (self.new.limit ≡ self.old.limit) × (self.new.stats ≡ self.old.stats) }
    {
        let table = &self.map.table;
        visit_bucket(
            rt,
            self.alloc,
            table,
            &mut self.session_state.caller,
            bucket,
            visit,
        )
    }

    /// Hands each pair of the map to the visitor.
    pub(crate) fn visit_all<F: FnMut(Text, V), R: Wait>(
        &mut self,
        rt: &R,
        visit: &mut F,
    ) -> Result<(), MapRefusal>
        requires { F.IsAlwaysCallable visit.old }
        ensures visits { IsVisit V.enc J.limits (λ pairs. FoldsTo (λ f pair g. F.step f pair.0 pair.1 tt g) visit.old pairs visit.new) self.old.pass self.new.pass result }
        ensures goes { Goes self.old.pass self.new.pass }
        ensures same { (self.new.limit ≡ self.old.limit) × (self.new.stats ≡ self.old.stats) }
    {
        visit_map(rt, self.alloc, self.map, &mut self.session_state, visit)
    }
}
