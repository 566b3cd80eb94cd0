//! Runs of pairs made one list in key order, by several threads.
//!
//! # Why in ranges of keys
//!
//! Merging two runs is work for one thread: which pair comes next is known only when the one in front of it is. But where all
//! runs are cut at one key, each pair before the cut comes before each pair behind it, whatever runs they are of. So the parts
//! on either side are merged on threads of their own, and their lists stand one behind the other.
ghost use Rattle.std.specs.Prelude.{◌≡◌, ◌<◌, IfOk, map};
ghost use Rattle.std.specs.Thread.{IsSync};
ghost use Rattle.far_pairs.specs.Bundles.{all_of};
ghost use Rattle.far_pairs.specs.Ranges.{AreCut, AreMerged};

use crate::lent_pair::LentPair;
use crate::run::Run;
use far_object::Memory;
use std::alloc::Global;
use std::thread::{Threads, join};

/// The pairs of all runs in key order. Those of one key come in the order of the runs, which no clause says.
fn merged<'a>(alloc: Global, runs: &[Run<'_, 'a>]) -> Result<Vec<LentPair<'a>>, Memory>
    ensures { IfOk result (λ pairs. AreMerged (all_of runs.now) pairs.items) }
{
    let mut pairs = Vec::new(alloc);
    for run in runs {
        run.lend(&mut pairs)?;
    }
    pairs.sort_by(|one, other| one.compare_keys(other))?;
    Ok(pairs)
}

/// The same, as a list of one range.
fn one_range<'a>(alloc: Global, runs: &[Run<'_, 'a>]) -> Result<Vec<Vec<LentPair<'a>>>, Memory>
    ensures { IfOk result (λ ranges. AreMerged (all_of runs.now) (all_of (map (λ r. r.items) ranges.items))) }
{
    let mut ranges = Vec::new(alloc);
    ranges.push(merged(alloc, runs)?)?;
    Ok(ranges)
}

/// A key behind about the first of so many parts of all pairs: the one that is there in the longest run.
fn key_behind_part<'a>(runs: &[Run<'_, 'a>], parts: usize) -> Option<&'a [u8]>
    requires { 0 < parts }
{
    let mut key = None;
    let mut longest = 0;
    for run in runs {
        if run.len() > longest {
            longest = run.len();
            key = run.key_behind_part(parts);
        }
    }
    key
}

/// Of each run the pairs whose keys come before this one, and of each the others.
fn cut_all<'b, 'a>(
    alloc: Global,
    runs: &[Run<'b, 'a>],
    key: &[u8],
) -> Result<(Vec<Run<'b, 'a>>, Vec<Run<'b, 'a>>), Memory>
    ensures { IfOk result (λ halves. AreCut key.now (all_of runs.now) (all_of halves.0.items) (all_of halves.1.items)) }
{
    let mut low = Vec::new(alloc);
    let mut high = Vec::new(alloc);
    for run in runs {
        let (before, behind) = run.cut(key);
        low.push(before)?;
        high.push(behind)?;
    }
    Ok((low, high))
}

/// The pairs of all runs in key order, in so many ranges at most, of which each comes behind the one before. Each but the last
/// has a thread of its own, as far as one can be started. This thread starts them all: one that a new thread starts may have to
/// wait for that thread's processor, where another has nothing to do.
#[cycle(ranges)]
pub(crate) fn in_ranges<'a, R: Threads + Sync>(
    rt: &R,
    alloc: Global,
    runs: Vec<Run<'_, 'a>>,
    most: usize,
) -> Result<Vec<Vec<LentPair<'a>>>, Memory>
    ensures { IfOk result (λ ranges. AreMerged (all_of runs.entry.items) (all_of (map (λ r. r.items) ranges.items))) }
{
    if most < 2 {
        return one_range(alloc, &runs);
    }
    let Some(key) = key_behind_part(&runs, most) else {
        return one_range(alloc, &runs);
    };
    let (low, high) = cut_all(alloc, &runs, key)?;
    let left = most - 1;
    let (before, behind) = join(
        rt,
        move || -> Result<Vec<Vec<LentPair<'_>>>, Memory>
            ensures { IfOk result (λ ranges. AreMerged (all_of low.entry.items) (all_of (map (λ r. r.items) ranges.items))) }
        { one_range(alloc, &low) },
        || -> Result<Vec<Vec<LentPair<'_>>>, Memory>
            requires { IsSync R.row }
            ensures { IfOk result (λ ranges. AreMerged (all_of high.entry.items) (all_of (map (λ r. r.items) ranges.items))) }
        { in_ranges(rt, alloc, high, left) },
    );
    let mut ranges = match before {
        Ok(ranges) => ranges,
        Err(Memory) => return Err(Memory),
    };
    let mut more = match behind {
        Ok(ranges) => ranges,
        Err(Memory) => return Err(Memory),
    };
    ranges.append(&mut more)?;
    Ok(ranges)
}
