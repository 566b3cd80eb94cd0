//! The pairs of all buckets, read at the end of a table by one caller, or by several at once.
ghost use Rattle.std.specs.Prelude.{◌≡◌, ◌+◌, ◌++◌, ◌<◌, ◌≤◌, [], IsTrue, IfOk, IfErr, OnOk, List, length};
ghost use Rattle.std.specs.Thread.{IsSync, IsSend};
ghost use mathlib.Core.List.{IsPrefix};
ghost use Rattle.far_pairs.specs.Bundles.{all_of};
ghost use Rattle.table_core.specs.declared.event.Event.{Event};
ghost use Rattle.table_core.specs.Maps.{at_bucket, map_of};
ghost use Rattle.table_core.specs.Logs.{history};
ghost use Rattle.table_core.specs.Lawful.{IsLawful};
ghost use Rattle.version_words.specs.Views.{Goes};
ghost use Rattle.hash_table.specs.Closes.{AreBack, AreTold, ArePairs, HistoryStays, pairs_from};
ghost use Rattle.hash_table.specs.Stages.{IsUnreadFar};

use crate::caller::Caller;
use crate::refusal::Refusal;
use crate::stages::seen::{Place, split};
use crate::table::FarTable;
use crate::traffic::Counted;
use far_device::Device;
use far_object::{FarObject, Memory, Object};
use far_pairs::Bundle;
use std::alloc::Global;
use std::sync::Wait;
use std::thread::{Threads, join_mut};
use version_words::{Mark, Naming, empty_holds};

/// Up to this many buckets are read by one caller, because they are not worth a thread.
pub(crate) const PART: u32 = 16_384;

// How many of `count` buckets the first caller reads. Up to 65,536 buckets are divided into four parts at
// most.
fn first_part(count: u32, callers: usize) -> u32
    requires { 1 < count }
    ensures { (0 < result) × (result < count) }
{
    if callers < 3 || count <= 2 * PART {
        count / 2
    } else if callers < 4 || count <= 3 * PART {
        count / 3
    } else {
        count / 4
    }
}

/// A collection of pairs, bucket after bucket.
pub(crate) trait Gathering<K: FarObject, V: FarObject>: Drop {
    ghost use Rattle.std.specs.Prelude.{List};

    ghost gathered: { Self → List (K × V) };

    /// No pairs. It allocates nothing.
    fn none(alloc: Global) -> Self
        ensures { gathered result ≡ [] };

    /// Adds the object's pairs after the others.
    fn add(&mut self, object: &Object<K, V>) -> Result<(), Memory>
        ensures { OnOk result (gathered self.new ≡ gathered self.old ++ object.now) };
}

/// Decoded keys and values.
impl<K: FarObject, V: FarObject> Gathering<K, V> for Vec<(K, V)> {
    ghost gathered = { λ pairs. pairs.items };

    fn none(alloc: Global) -> Vec<(K, V)> {
        Vec::new(alloc)
    }

    fn add(&mut self, object: &Object<K, V>) -> Result<(), Memory> {
        let mut pairs = object.entries(*self.allocator())?;
        self.append(&mut pairs)?;
        Ok(())
    }
}

/// The pairs as they are written.
impl<K: FarObject, V: FarObject> Gathering<K, V> for Bundle<K, V> {
    ghost gathered = { λ bundle. bundle };

    fn none(alloc: Global) -> Bundle<K, V> {
        Bundle::new(alloc)
    }

    fn add(&mut self, object: &Object<K, V>) -> Result<(), Memory> {
        Bundle::add(self, object)
    }
}

impl<K: FarObject, V: FarObject, J: Naming, D: Device> FarTable<K, V, J, D> {
    // Adds the pairs of a bucket, read by one try, after those that were collected.
    pub(crate) fn gather_bucket<R: Wait, G: Gathering<K, V>>(
        &self,
        rt: &R,
        alloc: Global,
        caller: &mut Caller<K, V, J>,
        bucket: u32,
        all: &mut G,
    ) -> Result<(), Refusal>
        requires bucket { bucket < J.limits.buckets }
        ensures lawful { IsLawful K.enc V.enc J.limits caller.new.pass.front }
        ensures goes { Goes caller.old.pass caller.new.pass }
        ensures limbo { caller.new.limbo ≡ caller.old.limbo }
        ensures pairs { OnOk result (IsTrue J.limits.honest → G.gathered all.new ≡ G.gathered all.old ++ at_bucket K.enc J.limits.buckets bucket (map_of K.enc V.enc (history caller.new.pass.front))) }
        ensures why { IfErr result (λ e. IsUnreadFar J.limits.honest e) }
    {
        let word = self.words.look(&mut caller.pass, bucket);
        let object = match split(word) {
            Place::Nothing => {
                empty_holds::<K, V>();
                caller.limbo.count(Counted::LocalRead);
                return Ok(());
            }
            Place::Frame(frame) => {
                let Ok(scope) = self.enter_frame(&caller.pass, bucket, word, frame) else {
                    return Err(Refusal::Missed);
                };
                let added = all.add(scope.object());
                scope.close();
                caller.limbo.count(Counted::LocalRead);
                return match added {
                    Ok(()) => Ok(()),
                    Err(_) => Err(Refusal::Memory),
                };
            }
            Place::Device => match self.read_device(rt, alloc, &caller.pass, bucket, word) {
                Ok(object) => object,
                Err(refusal) => {
                    caller.limbo.count(Counted::Refused(refusal));
                    return Err(refusal);
                }
            },
        };
        caller.limbo.count(Counted::FarRead);
        match all.add(&object) {
            Ok(()) => Ok(()),
            Err(_) => Err(Refusal::Memory),
        }
    }

    // The pairs of `count` buckets from this one on, bucket after bucket, read by a caller that has seen the
    // mark. In each later log that has the mark's history, they are its map's.
    fn gather_range<R: Wait, G: Gathering<K, V>>(
        &self,
        rt: &R,
        alloc: Global,
        caller: &mut Caller<K, V, J>,
        mark: &Mark<K, V, J>,
        from: u32,
        count: u32,
    ) -> Result<G, Refusal>
        requires within { from + count ≤ J.limits.buckets }
        requires told { IsPrefix mark.now caller.old.pass.front }
        ensures goes { Goes caller.old.pass caller.new.pass }
        ensures limbo { caller.new.limbo ≡ caller.old.limbo }
        ensures pairs { IfOk result (λ all. IsTrue J.limits.honest → (log : List (Event K V)) → IsPrefix caller.new.pass.front log → HistoryStays mark.now log
            → G.gathered all ≡ pairs_from K.enc V.enc J.limits log from count) }
        ensures why { IfErr result (λ e. IsUnreadFar J.limits.honest e) }
    {
        let _buckets = self.words.buckets();
        let mut all = G::none(alloc);
        for i in 0..count {
            match self.gather_bucket(rt, alloc, caller, from + i, &mut all) {
                Ok(()) => {}
                Err(refusal) => return Err(refusal),
            }
        }
        Ok(all)
    }

    // The same, read by the first of the callers.
    pub(crate) fn gather_by_first<R: Wait, G: Gathering<K, V>>(
        &self,
        rt: &R,
        alloc: Global,
        callers: &mut [Caller<K, V, J>],
        mark: &Mark<K, V, J>,
        from: u32,
        count: u32,
    ) -> Result<G, Refusal>
        requires within { from + count ≤ J.limits.buckets }
        requires some { 0 < length callers.old }
        requires told { AreTold mark.now callers.old }
        ensures back { AreBack callers.old callers.new }
        ensures pairs { IfOk result (λ all. ArePairs K.enc V.enc J.limits mark.now callers.new from count (G.gathered all)) }
        ensures why { IfErr result (λ e. IsUnreadFar J.limits.honest e) }
    {
        match self.gather_range(rt, alloc, &mut callers[0], mark, from, count) {
            Ok(all) => Ok(all),
            Err(refusal) => Err(refusal),
        }
    }

    // The same in key order, as the only bundle of a list.
    fn bundle_by_first<R: Wait>(
        &self,
        rt: &R,
        alloc: Global,
        callers: &mut [Caller<K, V, J>],
        mark: &Mark<K, V, J>,
        from: u32,
        count: u32,
    ) -> Result<Vec<Bundle<K, V>>, Refusal>
        requires within { from + count ≤ J.limits.buckets }
        requires some { 0 < length callers.old }
        requires told { AreTold mark.now callers.old }
        ensures back { AreBack callers.old callers.new }
        ensures pairs { IfOk result (λ v. ArePairs K.enc V.enc J.limits mark.now callers.new from count (all_of v.items)) }
        ensures why { IfErr result (λ e. IsUnreadFar J.limits.honest e) }
    {
        let bundle: Bundle<K, V> = match self.gather_by_first(
            rt, alloc, callers, mark, from, count,
        ) {
            Ok(bundle) => bundle,
            Err(refusal) => return Err(refusal),
        };
        let sorted = match bundle.in_order(alloc) {
            Ok(sorted) => sorted,
            Err(_) => return Err(Refusal::Memory),
        };
        let mut alone = Vec::new(alloc);
        match alone.push(sorted) {
            Ok(()) => Ok(alone),
            Err(_) => Err(Refusal::Memory),
        }
    }
}

impl<K, V, J, D> FarTable<K, V, J, D>
where
    K: FarObject + Send + Sync,
    V: FarObject + Send + Sync,
    J: Naming + Send + Sync,
    D: Device + Send,
{
    // As `bundle_by_first`, by one caller for each part. The bundles are in the order of the buckets. This
    // thread starts a thread for each part except the last, which it reads itself. A thread that a new thread
    // starts might wait for that thread's processor while another one is idle.
    #[cycle(parts)]
    pub(crate) fn read_parts<R: Threads + Wait + Sync>(
        &self,
        rt: &R,
        alloc: Global,
        callers: &mut [Caller<K, V, J>],
        mark: &Mark<K, V, J>,
        from: u32,
        count: u32,
    ) -> Result<Vec<Bundle<K, V>>, Refusal>
        requires within { from + count ≤ J.limits.buckets }
        requires some { 0 < length callers.old }
        requires told { AreTold mark.now callers.old }
        ensures back { AreBack callers.old callers.new }
        ensures pairs { IfOk result (λ v. ArePairs K.enc V.enc J.limits mark.now callers.new from count (all_of v.items)) }
        ensures why { IfErr result (λ e. IsUnreadFar J.limits.honest e) }
    {
        if count <= PART || callers.len() < 2 {
            return self.bundle_by_first(rt, alloc, callers, mark, from, count);
        }
        let _buckets = self.words.buckets();
        let near = first_part(count, callers.len());
        let rest = count - near;
        let (own, others) = callers.split_at_mut(1);
        self.read_both(rt, alloc, own, others, mark, from, near, rest)
    }

    // The pairs of `half` buckets from this one on, read by the callers `own`, and of the `rest` after them,
    // read by `others`.
    #[cycle(parts)]
    fn read_both<R: Threads + Wait + Sync>(
        &self,
        rt: &R,
        alloc: Global,
        own: &mut [Caller<K, V, J>],
        others: &mut [Caller<K, V, J>],
        mark: &Mark<K, V, J>,
        from: u32,
        half: u32,
        rest: u32,
    ) -> Result<Vec<Bundle<K, V>>, Refusal>
        requires within { from + half + rest ≤ J.limits.buckets }
        requires parts { (0 < half) × (0 < rest) }
        requires some { (0 < length own.old) × (0 < length others.old) }
        requires told { AreTold mark.now own.old × AreTold mark.now others.old }
        ensures back { AreBack own.old own.new × AreBack others.old others.new }
        ensures pairs { IfOk result (λ v. ArePairs K.enc V.enc J.limits mark.now (own.new ++ others.new) from (half + rest) (all_of v.items)) }
        ensures why { IfErr result (λ e. IsUnreadFar J.limits.honest e) }
    {
        let _buckets = self.words.buckets();
        let middle = from + half;
        let mut near = || -> Result<Vec<Bundle<K, V>>, Refusal>
            requires { IsSync R.row × IsSend K.row × IsSync K.row × IsSend V.row × IsSync V.row × IsSend J.row × IsSync J.row × IsSend D.row
                × (from + half ≤ J.limits.buckets) × (0 < length own.now) × AreTold mark.now own.now }
            ensures back { AreBack own.entry.now own.exit.now }
            ensures pairs { IfOk result (λ v. ArePairs K.enc V.enc J.limits mark.entry.now own.exit.now from half (all_of v.items)) }
            ensures why { IfErr result (λ e. IsUnreadFar J.limits.honest e) }
        { self.read_parts(rt, alloc, own, mark, from, half) };
        let mut far = || -> Result<Vec<Bundle<K, V>>, Refusal>
            requires { IsSync R.row × IsSend K.row × IsSync K.row × IsSend V.row × IsSync V.row × IsSend J.row × IsSync J.row × IsSend D.row
                × (middle + rest ≤ J.limits.buckets) × (0 < length others.now) × AreTold mark.now others.now }
            ensures back { AreBack others.entry.now others.exit.now }
            ensures pairs { IfOk result (λ v. ArePairs K.enc V.enc J.limits mark.entry.now others.exit.now middle rest (all_of v.items)) }
            ensures why { IfErr result (λ e. IsUnreadFar J.limits.honest e) }
        { self.read_parts(rt, alloc, others, mark, middle, rest) };
        let (first, second) = join_mut(rt, &mut near, &mut far);
        let mut all = match first {
            Ok(bundles) => bundles,
            Err(refusal) => return Err(refusal),
        };
        let mut more = match second {
            Ok(bundles) => bundles,
            Err(refusal) => return Err(refusal),
        };
        match all.append(&mut more) {
            Ok(()) => Ok(all),
            Err(_) => Err(Refusal::Memory),
        }
    }
}
