//! What each worker of a map does that is renewed.
ghost use Rattle.std.specs.Prelude.{◌≡◌, []};
ghost use Rattle.version_words.specs.Views.{calls};
ghost use Rattle.far_map.specs.Counts.{no_calls};
ghost use Rattle.far_map.specs.Loads.{lost_of};

use crate::calls::Calls;
use crate::values::Value;
use std::alloc::Global;
use std::sync::Wait;

/// What follows a generation of a map, once all workers have left it.
#[derive(Clone, Copy, Debug, PartialEq, Eq)]
pub enum After {
    /// The run ends.
    End,
    /// Another generation, which begins with the pairs that this one left.
    Renewed,
}

/// What a generation begins with, and what was lost on the way into it. In the first one all counts are 0.
#[derive(Clone, Copy, Debug, PartialEq, Eq)]
pub struct LoadReport {
    /// How many pairs were put.
    pub pairs: u64,
    /// How many pairs are lost because their put was refused.
    pub lost_pairs: u64,
    /// How many buckets could not be read or handed over, plus how many parts of the migration could not be
    /// taken. Their pairs are lost.
    pub lost_buckets: u64,
    /// How many of the buckets that were handed over had their object on a device.
    pub far: u64,
}

impl LoadReport {
    /// What a generation begins with before any pair is put. Of the one before it, this many buckets were
    /// lost, and of the others this many were on a device.
    pub(crate) fn behind(lost_buckets: u64, far: u64) -> LoadReport
        ensures { lost_of result ≡ 0 → lost_buckets ≡ 0 }
    {
        LoadReport {
            pairs: 0,
            lost_pairs: 0,
            lost_buckets,
            far,
        }
    }

    /// How many pairs, buckets and parts were lost.
    pub(crate) fn lost(&self) -> u64
        ensures { result ≡ lost_of self.now }
    {
        self.lost_pairs.saturating_add(self.lost_buckets)
    }
}

/// What each worker of `run_renewed` does. It works in terms: one in each generation of the map, by a new
/// session, on its own thread.
///
/// If a thread can't be started, its worker's term comes after those of others, on their thread. So a term
/// that waits for another one may wait forever. A worker uses its session only on that thread.
pub trait RenewableWork<V: Value>: Sync {
    ghost use Rattle.table_core.specs.declared.limits.Limits.{Limits};
    ghost use Rattle.far_map.specs.Views.{SessionView};
    ghost use Rattle.std.specs.Prelude.{ℕ};

    /// What a worker keeps from one term to the next.
    type State: Send + Drop;

    // What is proved of a term. It is a statement about the worker's number, the map's limits, the session
    // before and after, and the state before and after.
    ghost done: { Self → ℕ → Limits → SessionView V → SessionView V → Self.State → Self.State → Type 0 } = { λ _ _ _ _ _ _ _. Unit {0} };

    /// Does one term of a worker, and returns the state for its next one. `worker` is its number, counted
    /// from 0, and `me` is a session that has made no call.
    ///
    /// It should return when `Calls::names_left` is small, and when other workers leave: the next generation
    /// begins only when all have returned. Once version numbers are spent, changes are refused.
    fn term<S: Calls<V>, R: Wait>(
        &self,
        rt: &R,
        alloc: Global,
        worker: u32,
        me: &mut S,
        state: Self::State,
    ) -> Self::State
        requires new { calls (S.shown me.old).pass ≡ [] }
        requires stats { (S.shown me.old).stats ≡ no_calls }
        ensures { done self.now worker S.limits (S.shown me.old) (S.shown me.new) state result };

    /// Is called once for each generation, after the pairs were put and before any term begins. `load_report`
    /// states what was put and what was lost. No worker works meanwhile.
    fn begins(&self, load_report: LoadReport);

    /// Returns what follows a generation. `states` is what its workers returned, in the order of their
    /// numbers. No worker works meanwhile.
    fn after(&self, states: &[Self::State]) -> After;
}
