//! The workers of a run that is never renewed: the work of each is its only term.
ghost use Rattle.std.specs.Prelude.{◌≡◌, ◌<◌, ◌^◌, map, vec_len, Some, IsSome, IfOk, IfErr};
ghost use Rattle.std.specs.List.{AllByRecursion};
ghost use Rattle.far_map.specs.Faults.{IsOfEntering};
ghost use Rattle.far_map.specs.Runs.{Worked};

use crate::calls::Calls;
use crate::fault::MapFault;
use crate::map::FarMap;
use crate::pending_session::PendingSession;
use crate::renewable_work::{After, LoadReport, RenewableWork};
use crate::values::Value;
use crate::work::Work;
use crate::workers::{Ended, serve_terms};
use far_device::Device;
use std::alloc::{AllocError, Global};
use std::sync::Wait;
use std::thread::Threads;
use swapper::QueueNaming;
use version_words::Naming;

/// Work of which each worker does one term. It keeps what the work returns.
#[derive(Drop)]
struct Single<'w, W> {
    work: &'w W,
}

impl<'w, V: Value, W: Work<V>> RenewableWork<V> for Single<'w, W> {
    ghost use Rattle.std.specs.Prelude.{IsSomeAnd};

    type State = Option<W::Out>;

    // What is kept is there, and what the work states of it holds.
    ghost done = { λ single worker l begun ended before after. IsSomeAnd after (λ out. W.done single.work.now worker l begun ended out) };

    fn term<S: Calls<V>, R: Wait>(
        &self,
        rt: &R,
        alloc: Global,
        worker: u32,
        me: &mut S,
        _nothing: Option<W::Out>,
    ) -> Option<W::Out> {
        Some(self.work.work(rt, alloc, worker, me))
    }

    fn begins(&self, _load_report: LoadReport) {}

    fn after(&self, _states: &[Option<W::Out>]) -> After {
        After::End
    }
}

/// A state for each worker, which has kept nothing yet.
fn no_outs<T: Drop>(alloc: Global, count: usize) -> Result<Vec<Option<T>>, AllocError>
    ensures { IfOk result (λ states. vec_len states ≡ count) }
{
    let mut states = Vec::new(alloc);
    for _ in 0..count {
        states.push(None)?;
    }
    Ok(states)
}

/// What each of them kept.
fn outs_of<T: Drop>(alloc: Global, states: Vec<Option<T>>) -> Result<Vec<T>, AllocError>
    requires each { AllByRecursion IsSome states.items }
    ensures { IfOk result (λ outs. map Some outs.items ≡ states.items) }
{
    let mut outs = Vec::new(alloc);
    for state in states {
        let Some(out) = state else {
            unreachable!();
        };
        outs.push(out)?;
    }
    Ok(outs)
}

/// The work of each newcomer, next to the evictor. Nothing was put before it, so any mark serves: it is the
/// evictor's.
pub(crate) fn serve<V, J, B, D, W, R>(
    rt: &R,
    alloc: Global,
    far: &FarMap<V, J, B, D>,
    work: &W,
    all_pending: Vec<PendingSession<V, J, B>>,
) -> Result<Ended<V, J, W::Out>, MapFault>
where
    V: Value + Send + Sync,
    J: Naming + Send + Sync,
    B: QueueNaming + Send + Sync,
    D: Device + Send,
    W: Work<V>,
    R: Threads + Wait + Sync,
    requires few { vec_len all_pending < 2 ^ 32 }
    ensures worked { IfOk result (λ r. Worked (λ worker begun ended out. W.done work.now worker J.limits begun ended out) far.now.table.limit (vec_len all_pending) (map (λ c. c.pass) r.0.items) r.1.items) }
    ensures fault { IfErr result IsOfEntering }
{
    let states = no_outs(alloc, all_pending.len())?;
    let mark = far.evictor.lock(rt).mark();
    let single = Single { work };
    let (callers, kept) = serve_terms(rt, alloc, far, &mark, &single, all_pending, states)?;
    let outs = outs_of(alloc, kept)?;
    Ok((callers, outs))
}
