//! The order of keys.
ghost use Rattle.std.specs.Prelude.{◌≡◌, List, IfOk, map};
ghost use Rattle.std.specs.List.Sorted.{IsPermutation};
ghost use Rattle.far_pairs.specs.Bundles.{all_of, written, AreInOrder};

use crate::bundle::Bundle;
use crate::lent_pair::LentPair;
use crate::ranges::in_ranges;
use crate::run::Run;
use far_object::{FarObject, Memory};
use rayon::iter::{
    FromParallelIterator, IndexedParallelIterator, IntoParallelRefIterator, ParallelIterator,
};
use std::alloc::{AllocError, Global};
use std::marker::{Model, Sync};
use std::thread::Threads;

/// So many pairs are worth threads.
const MANY: usize = 4_096;

/// The most ranges of keys: about as many as there are threads that have nothing else to do then.
const MOST_RANGES: usize = 4;

/// A bundle's pairs, lent, in the order of their keys.
#[derive(Drop)]
struct Ordered<'a> {
    pairs: Vec<LentPair<'a>>,
}

impl<'a> Model for Ordered<'a> {
    ghost use Rattle.std.specs.Prelude.{ℕ, List};
    ghost use Rattle.far_pairs.specs.Ranges.{AreRising};

    ghost Value = { List (List ℕ × List ℕ) };

    ghost view = { λ o. o.pairs.items };

    ghost invariant = { λ o. AreRising o.pairs.items };
}

impl<'a> Ordered<'a> {
    /// Those of this bundle. It takes little time where they are in order there.
    fn of<K: FarObject, V: FarObject>(
        alloc: Global,
        bundle: &'a Bundle<K, V>,
    ) -> Result<Ordered<'a>, Memory>
        ensures { IfOk result (λ pairs. IsPermutation (map (written K.enc V.enc) bundle.now) pairs) }
    {
        let mut pairs = Vec::new(alloc);
        bundle.lend(&mut pairs)?;
        pairs.sort_by(|one, other| one.compare_keys(other))?;
        Ok(Ordered { pairs })
    }

    fn run(&self) -> Run<'_, 'a>
        ensures { result ≡ self.now }
    {
        Run::new(self.pairs.as_slice())
    }
}

// The pairs of bundles, each in order by itself.
#[derive(Drop)]
struct AllOrdered<'a> {
    lists: Vec<Ordered<'a>>,
}

impl<'a, K: FarObject, V: FarObject> FromParallelIterator<&'a Bundle<K, V>> for AllOrdered<'a> {
    type Alloc = Global;

    ghost from_par_iter_gives = { λ xs all. IsPermutation (map (written K.enc V.enc) (all_of (map (λ x. x.now) xs))) (all_of all.lists.items) };

    fn empty_in(alloc: &Global) -> Result<Self, AllocError> {
        Ok(AllOrdered {
            lists: Vec::new(*alloc),
        })
    }

    fn with_item(mut self, item: &'a Bundle<K, V>) -> Result<Self, AllocError> {
        match Ordered::of(*self.lists.allocator(), item) {
            Ok(ordered) => {
                self.lists.push(ordered)?;
                Ok(self)
            }
            Err(Memory) => Err(AllocError),
        }
    }

    fn joined_with(mut self, mut other: Self) -> Result<Self, AllocError> {
        self.lists.append(&mut other.lists)?;
        Ok(self)
    }
}

/// A run for each of these lists, and how many pairs they have, as far as a number counts them.
fn runs_of<'b, 'a>(
    alloc: Global,
    lists: &'b [Ordered<'a>],
) -> Result<(Vec<Run<'b, 'a>>, usize), Memory>
    ensures { IfOk result (λ r. r.0.items ≡ lists.now) }
{
    let mut runs = Vec::new(alloc);
    let mut count: usize = 0;
    for list in lists {
        let run = list.run();
        count = count.saturating_add(run.len());
        runs.push(run)?;
    }
    Ok((runs, count))
}

/// The pairs of all bundles, lent, in the order of their keys' encodings: in one list, or in up to four, each behind the one
/// before. Those of one key come in the order of the bundles, which no clause says.
///
/// Each bundle is lent and sorted on a thread of its own, and from 4,096 pairs on up to four threads make the lists, as far as
/// these can be started. `Memory` comes where a list, or the room that sorting it takes, is refused.
pub fn in_key_order<'a, K, V, R>(
    rt: &R,
    alloc: Global,
    bundles: &'a [Bundle<K, V>],
) -> Result<Vec<Vec<LentPair<'a>>>, Memory>
where
    K: FarObject + Send + Sync,
    V: FarObject + Send + Sync,
    R: Threads + Sync,
    ensures { IfOk result (λ lists. AreInOrder K.enc V.enc (all_of bundles.now) (all_of (map (λ l. l.items) lists.items))) }
{
    let all: AllOrdered<'a> = bundles.par_iter().with_min_len(1).collect(rt, alloc)?;
    let (runs, count) = runs_of(alloc, all.lists.as_slice())?;
    let most = if count < MANY { 1 } else { MOST_RANGES };
    in_ranges(rt, alloc, runs, most)
}
