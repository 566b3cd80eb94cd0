//! All pairs that stand, over all buckets.
ghost use Rattle.std.specs.Prelude.{◌≡◌, ◌<◌, ◌++◌, List, IfOk, OnOk, map};
ghost use Rattle.table_core.specs.declared.event.Event.{Event};
ghost use Rattle.table_core.specs.Logs.{history};
ghost use Rattle.table_core.specs.Maps.{joined, map_of};
ghost use Rattle.table_core.specs.Machines.{buckets_of, StandsAt};
ghost use Rattle.table_core.specs.Changes.{standing_at};

use crate::machine::Machine;
use far_object::{FarObject, Memory};
use std::alloc::Global;

impl<K: FarObject, V: FarObject> Machine<K, V> {
    /// All pairs that stand, in the order of their keys' bytes.
    pub fn pairs(&self, alloc: Global) -> Result<Vec<&(K, V)>, Memory>
        ensures { IfOk result (λ v. (log : List (Event K V)) → StandsAt K.enc V.enc self.now log → map (λ pair. pair.now) v.items ≡ map_of K.enc V.enc (history log)) }
    {
        let mut pairs = self.gathered(alloc)?;
        pairs.sort_unstable_by(|one, other| one.0.compare(&other.0));
        Ok(pairs)
    }

    /// How many pairs stand.
    fn count(&self) -> usize {
        let mut count: usize = 0;
        for bucket in 0..self.buckets() {
            count = count.saturating_add(self.standing(bucket).len());
        }
        count
    }

    /// All pairs that stand, bucket by bucket.
    fn gathered(&self, alloc: Global) -> Result<Vec<&(K, V)>, Memory>
        ensures pairs { IfOk result (λ v. map (λ pair. pair.now) v.items ≡ joined (λ b. standing_at self.now b) (buckets_of self.now)) }
        ensures some { 0 < buckets_of self.now }
    {
        let buckets = self.buckets();
        let mut pairs = Vec::with_capacity(alloc, self.count())?;
        for bucket in 0..buckets {
            append(&mut pairs, self.standing(bucket))?;
        }
        Ok(pairs)
    }
}

/// Appends the pairs, each by reference.
fn append<'a, K, V>(pairs: &mut Vec<&'a (K, V)>, more: &'a [(K, V)]) -> Result<(), Memory>
    ensures { OnOk result (map (λ pair. pair.now) pairs.new.items ≡ map (λ pair. pair.now) pairs.old.items ++ more.now) }
{
    for pair in more {
        pairs.push(pair)?;
    }
    Ok(())
}
