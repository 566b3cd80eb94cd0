//! All passes at one front, as the end of a table needs them.
ghost use Rattle.std.specs.Prelude.{◌≡◌, ◌≢◌, ◌<◌, ◌≤◌, ℕ, [], length, map, slice_index_or, IfOk, IfErr};
ghost use mathlib.Core.List.{IsPrefix};
ghost use Rattle.table_core.specs.Logs.{passes_of};
ghost use Rattle.table_core.specs.Lawful.{IsLawful};
ghost use Rattle.version_words.specs.Views.{PassView, Goes, IsWhole, AreApart, AreNone, IsNumbered, calls_of};
ghost use Rattle.version_words.specs.Faults.{IsGatherFault};

use super::Words;
use crate::gather_fault::GatherFault;
use crate::holder::PassHolder;
use crate::mark::Mark;
use crate::naming::Naming;
use crate::tally::Tally;
use far_object::{FarObject, Memory};
use std::alloc::Global;

// A law, without a step: two holders' passes have different numbers.
fn differ_at<K: FarObject, V: FarObject, J: Naming, H: PassHolder<K, V, J>>(
    holders: &mut [H],
    one: usize,
    other: usize,
)
    requires order { one < other }
    requires there { other < length holders.old }
    ensures numbers { (d : H) → (H.pass_of (slice_index_or holders.old one d)).number ≢ (H.pass_of (slice_index_or holders.old other d)).number }
{
    let (before, from) = holders.split_at_mut(other);
    before[one].differs_from(&mut from[0]);
}

// No two holders have one pass. They are looked up by number: passes that all differ cost one look each.
fn are_apart<K: FarObject, V: FarObject, J: Naming, H: PassHolder<K, V, J>>(
    alloc: Global,
    drawn: usize,
    holders: &mut [H],
) -> Result<(), Memory>
    requires numbered { (k : ℕ) (d : H) → k < length holders.old → IsNumbered drawn (H.pass_of (slice_index_or holders.old k d)) }
    ensures apart { IfOk result (λ _. AreApart (map H.pass_of holders.old)) }
    ensures same { holders.new ≡ holders.old }
{
    let mut holder_of: Vec<Option<usize>> = vec![in alloc; None; drawn]?;
    for k in 0..holders.len() {
        let at = holders[k].pass().number() as usize - 1;
        if let Some(other) = holder_of[at] {
            differ_at(holders, other, k);
            unreachable!();
        }
        holder_of[at] = Some(k);
    }
    Ok(())
}

impl<K: FarObject, V: FarObject, J: Naming> Words<K, V, J> {
    /// How many names may still be drawn, at a moment of the call: a hint, of which no clause says anything.
    pub fn names_left(&self) -> u64 {
        let mut mark = self.start.again();
        let mut none = Tally::none();
        let mut no_name = Tally::none();
        let at = self.sizes.buckets as usize;
        let drawn = self.look_at(at, &mut mark, &mut none, &mut no_name);
        self.sizes.names.saturating_sub(drawn)
    }

    /// One front, at which the passes that are handed in are all that were drawn, and each has just the calls that it made.
    /// They come in any order.
    ///
    /// `Missing` comes where more passes were drawn than are handed in, as the mark says, and `Memory` where the room for a
    /// number for each pass is refused. On every answer each pass has made no call, its front has grown, and all else that
    /// its holder holds stays.
    pub fn gather<H: PassHolder<K, V, J>>(
        &self,
        alloc: Global,
        holders: &mut [H],
    ) -> Result<Mark<K, V, J>, GatherFault<K, V, J>>
        ensures lawful { IfOk result (λ m. IsLawful K.enc V.enc J.limits m) }
        ensures all { IfOk result (λ m. passes_of m ≡ length holders.old) }
        ensures apart { IfOk result (λ _. AreApart (map H.pass_of holders.old)) }
        ensures numbered { IfOk result (λ m. (k : ℕ) (d : H) → k < length holders.old → IsNumbered (passes_of m) (H.pass_of (slice_index_or holders.old k d))) }
        ensures whole { IfOk result (λ m. (k : ℕ) (d : H) → k < length holders.old → IsWhole m (H.pass_of (slice_index_or holders.old k d))) }
        ensures no_other { IfOk result (λ m. (pass : PassView K V) → AreNone pass (map H.pass_of holders.old) → calls_of pass.number m ≡ []) }
        ensures told { IfOk result (λ m. (k : ℕ) (d : H) → k < length holders.old → IsPrefix m (H.pass_of (slice_index_or holders.new k d)).front) }
        ensures count { length holders.new ≡ length holders.old }
        ensures goes { (k : ℕ) (d : H) → k < length holders.old → Goes (H.pass_of (slice_index_or holders.old k d)) (H.pass_of (slice_index_or holders.new k d)) }
        ensures rest { (k : ℕ) (d : H) → k < length holders.old → slice_index_or holders.new k d ≡ H.with_pass (slice_index_or holders.old k d) (H.pass_of (slice_index_or holders.new k d)) }
        ensures fault { IfErr result (λ e. IsGatherFault K.enc V.enc J.limits (length holders.old) e) }
    {
        let count = holders.len();
        let mut mark = self.start.again();
        for k in 0..count {
            mark.learn(&holders[k].pass().mark());
        }
        let mut none = Tally::none();
        let mut no_name = Tally::none();
        let at = self.sizes.buckets as usize + 1;
        let drawn = self.look_at(at, &mut mark, &mut none, &mut no_name);
        if drawn > count as u64 {
            return Err(GatherFault::Missing(mark));
        }
        let Ok(()) = are_apart(alloc, drawn as usize, holders) else {
            return Err(GatherFault::Memory);
        };
        for k in 0..count {
            holders[k].tell(self, &mark);
        }
        Ok(mark)
    }
}
