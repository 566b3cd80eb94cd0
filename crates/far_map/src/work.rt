//! What each worker of a run does.
ghost use Rattle.std.specs.Prelude.{◌≡◌, []};
ghost use Rattle.version_words.specs.Views.{calls};
ghost use Rattle.far_map.specs.Counts.{no_calls};

use crate::calls::Calls;
use crate::values::Value;
use std::alloc::Global;
use std::sync::Wait;

/// What each worker of a run does, on its own thread. What the workers share, and what each of them needs,
/// are fields of the type.
///
/// If a thread can't be started, its worker works after others on their thread. So a worker that waits for
/// another one may wait forever. A worker uses its session only on its own thread.
pub trait Work<V: Value>: Sync {
    ghost use Rattle.table_core.specs.declared.limits.Limits.{Limits};
    ghost use Rattle.far_map.specs.Views.{SessionView};
    ghost use Rattle.std.specs.Prelude.{ℕ};

    /// What a worker returns.
    type Out: Send + Drop;

    // What is proved of a worker. It is a statement about its number, the map's limits, the session before
    // and after, and what it returned.
    ghost done: { Self → ℕ → Limits → SessionView V → SessionView V → Self.Out → Type 0 } = { λ _ _ _ _ _ _. Unit {0} };

    /// Does the work of one worker, and returns its result. `worker` is its number, counted from 0, and `me`
    /// is a session that has made no call.
    fn work<S: Calls<V>, R: Wait>(
        &self,
        rt: &R,
        alloc: Global,
        worker: u32,
        me: &mut S,
    ) -> Self::Out
        requires new { calls (S.shown me.old).pass ≡ [] }
        requires stats { (S.shown me.old).stats ≡ no_calls }
        ensures { done self.now worker S.limits (S.shown me.old) (S.shown me.new) result };
}
