//! One term of each worker, on a thread each as far as threads can be started, next to the evictor's thread.
//!
//! # What a term sees
//!
//! Before its session begins, each worker learns the mark of what was put before. So its first call already
//! follows all of that. No clause says that a term leaves its session in place, so the number of the pass is
//! compared.
ghost use Rattle.std.specs.Prelude.{◌≡◌, ◌<◌, ◌^◌, ◌++◌, ◌∷◌, [], map, vec_len, IfOk, IfErr};
ghost use Rattle.std.specs.Thread.{IsSync, IsSend};
ghost use Rattle.far_map.specs.declared.fault.MapFault.TheVariants.{PassesSpent};
ghost use Rattle.far_map.specs.Faults.{IsOfEntering};
ghost use Rattle.far_map.specs.Generations.{IsTerm, AreTerms};

use crate::fault::MapFault;
use crate::map::FarMap;
use crate::pending_session::PendingSession;
use crate::renewable_work::RenewableWork;
use crate::session::Session;
use crate::values::Value;
use far_device::Device;
use far_object::Text;
use hash_table::Caller;
use std::alloc::{AllocError, Global};
use std::sync::Wait;
use std::thread::{Threads, join};
use swapper::QueueNaming;
use version_words::{Mark, Naming, PassHolder};

/// The callers of workers that have ended, and what they returned, in the order of the workers.
pub(crate) type Ended<V, J, T> = (Vec<Caller<Text, V, J>>, Vec<T>);

/// Adds this worker's caller and result after those of the others.
fn with_last<V: Value, J: Naming, T: Drop>(
    others: Ended<V, J, T>,
    last: (Caller<Text, V, J>, T),
) -> Result<Ended<V, J, T>, AllocError>
    ensures callers { IfOk result (λ r. map (λ c. c.pass) r.0.items ≡ map (λ c. c.pass) others.0.items ++ last.0.pass ∷ []) }
    ensures outs { IfOk result (λ r. r.1.items ≡ others.1.items ++ last.1 ∷ []) }
{
    let (mut callers, mut outs) = others;
    let (caller, out) = last;
    callers.push(caller)?;
    outs.push(out)?;
    Ok((callers, outs))
}

/// The number of the caller's pass.
fn number_of<V: Value, J: Naming>(caller: &Caller<Text, V, J>) -> u32
    ensures { result ≡ caller.now.pass.number }
{
    caller.pass().number()
}

impl<'m, V: Value, J: Naming, B: QueueNaming, D: Device> Session<'m, V, J, B, D> {
    /// The number of its pass.
    fn number(&self) -> u32
        ensures { result ≡ self.now.pass.number }
    {
        number_of(&self.session_state.caller)
    }
}

/// One worker's term, after the mark. Returns `PassesSpent` if it left another session than it was handed.
fn one<V, J, B, D, W, R>(
    rt: &R,
    alloc: Global,
    far: &FarMap<V, J, B, D>,
    mark: &Mark<Text, V, J>,
    work: &W,
    pending: PendingSession<V, J, B>,
    state: W::State,
    worker: u32,
) -> Result<(Caller<Text, V, J>, W::State), MapFault>
where
    V: Value,
    J: Naming,
    B: QueueNaming,
    D: Device,
    W: RenewableWork<V>,
    R: Wait,
    ensures term { IfOk result (λ r. IsTerm (λ begun ended before after. W.done work.now worker J.limits begun ended before after) far.now.table.limit mark.now r.0.pass state r.1) }
    ensures fault { IfErr result (λ fault. fault ≡ PassesSpent) }
{
    let mut me = far.begin_behind(alloc, pending, mark);
    let number = me.number();
    let kept = work.term(rt, alloc, worker, &mut me, state);
    let caller = me.leave();
    if number_of(&caller) != number {
        return Err(MapFault::PassesSpent);
    }
    Ok((caller, kept))
}

/// A term for each newcomer, from the state at its place. The last is on a thread of its own, and the others
/// are on this thread and theirs. Returns `Memory` if an allocation failed.
fn terms<V, J, B, D, W, R>(
    rt: &R,
    alloc: Global,
    far: &FarMap<V, J, B, D>,
    mark: &Mark<Text, V, J>,
    work: &W,
    mut all_pending: Vec<PendingSession<V, J, B>>,
    mut states: Vec<W::State>,
) -> Result<Ended<V, J, W::State>, MapFault>
where
    V: Value + Send + Sync,
    J: Naming + Send + Sync,
    B: QueueNaming + Send + Sync,
    D: Device + Send,
    W: RenewableWork<V>,
    R: Threads + Wait + Sync,
    requires few { vec_len all_pending < 2 ^ 32 }
    requires each { vec_len states ≡ vec_len all_pending }
    ensures worked { IfOk result (λ r. AreTerms (λ worker begun ended before after. W.done work.now worker J.limits begun ended before after) far.now.table.limit mark.now 0 (map (λ c. c.pass) r.0.items) states.items r.1.items) }
    ensures fault { IfErr result IsOfEntering }
{
    let Some(pending) = all_pending.pop() else {
        return Ok((Vec::new(alloc), Vec::new(alloc)));
    };
    let Some(state) = states.pop() else {
        unreachable!();
    };
    let last = all_pending.len() as u32;
    if last == 0 {
        let alone = one(rt, alloc, far, mark, work, pending, state, 0)?;
        return Ok(with_last((Vec::new(alloc), Vec::new(alloc)), alone)?);
    }
    let (own, others) = join(
        rt,
        || -> Result<(Caller<Text, V, J>, W::State), MapFault>
            requires { IsSync R.row }
            ensures term { IfOk result (λ r. IsTerm (λ begun ended before after. W.done work.entry.now last J.limits begun ended before after) far.entry.now.table.limit mark.entry.now r.0.pass state r.1) }
            ensures fault { IfErr result (λ fault. fault ≡ PassesSpent) }
        { one(rt, alloc, far, mark, work, pending, state, last) },
        || -> Result<Ended<V, J, W::State>, MapFault>
            requires { IsSync R.row × IsSend V.row × IsSync V.row × IsSend J.row × IsSync J.row × IsSend B.row × IsSync B.row × IsSend D.row × IsSync W.row × IsSend W.State.row × (vec_len all_pending < 2 ^ 32) × (vec_len states ≡ vec_len all_pending) }
            ensures worked { IfOk result (λ r. AreTerms (λ worker begun ended before after. W.done work.entry.now worker J.limits begun ended before after) far.entry.now.table.limit mark.entry.now 0 (map (λ c. c.pass) r.0.items) states.items r.1.items) }
            ensures fault { IfErr result IsOfEntering }
        { terms(rt, alloc, far, mark, work, all_pending, states) },
    );
    let others = others?;
    let own = own?;
    Ok(with_last(others, own)?)
}

/// The terms, next to the evictor's thread if there are several. If that thread can't be started, its loop
/// begins after all workers have ended, and ends at once. The sessions make room by themselves then.
pub(crate) fn serve_terms<V, J, B, D, W, R>(
    rt: &R,
    alloc: Global,
    far: &FarMap<V, J, B, D>,
    mark: &Mark<Text, V, J>,
    work: &W,
    all_pending: Vec<PendingSession<V, J, B>>,
    states: Vec<W::State>,
) -> Result<Ended<V, J, W::State>, MapFault>
where
    V: Value + Send + Sync,
    J: Naming + Send + Sync,
    B: QueueNaming + Send + Sync,
    D: Device + Send,
    W: RenewableWork<V>,
    R: Threads + Wait + Sync,
    requires few { vec_len all_pending < 2 ^ 32 }
    requires each { vec_len states ≡ vec_len all_pending }
    ensures worked { IfOk result (λ r. AreTerms (λ worker begun ended before after. W.done work.now worker J.limits begun ended before after) far.now.table.limit mark.now 0 (map (λ c. c.pass) r.0.items) states.items r.1.items) }
    ensures fault { IfErr result IsOfEntering }
{
    if all_pending.len() < 2 {
        return terms(rt, alloc, far, mark, work, all_pending, states);
    }
    let (_, done) = join(
        rt,
        || far.evict(rt),
        || -> Result<Ended<V, J, W::State>, MapFault>
            requires { IsSync R.row × IsSend V.row × IsSync V.row × IsSend J.row × IsSync J.row × IsSend B.row × IsSync B.row × IsSend D.row × IsSync W.row × IsSend W.State.row × (vec_len all_pending < 2 ^ 32) × (vec_len states ≡ vec_len all_pending) }
            ensures worked { IfOk result (λ r. AreTerms (λ worker begun ended before after. W.done work.entry.now worker J.limits begun ended before after) far.entry.now.table.limit mark.entry.now 0 (map (λ c. c.pass) r.0.items) states.items r.1.items) }
            ensures fault { IfErr result IsOfEntering }
        {
            let done = terms(rt, alloc, far, mark, work, all_pending, states);
            far.stop_evicting();
            done
        },
    );
    done
}
