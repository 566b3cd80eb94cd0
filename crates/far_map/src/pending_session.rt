//! Sessions enter. Their passes are drawn before any worker begins, so a run that has too few of them does
//! nothing.
ghost use Rattle.std.specs.Prelude.{◌≡◌, ◌<◌, ◌^◌, [], vec_len, IfOk, IfErr};
ghost use mathlib.Core.List.{IsPrefix};
ghost use Rattle.version_words.specs.Views.{calls};
ghost use Rattle.far_map.specs.Counts.{no_calls};
ghost use Rattle.far_map.specs.Faults.{IsOfEntering};

use crate::fault::MapFault;
use crate::map::FarMap;
use crate::session::Session;
use crate::stats::Stats;
use crate::upkeep::SessionState;
use crate::values::Value;
use far_device::Device;
use far_object::Text;
use hash_table::{Caller, FarTable};
use std::alloc::Global;
use std::sync::Wait;
use swapper::{QueueNaming, QueueSeat, RoomMaker};
use version_words::{EnterFault, Mark, Naming};

/// A session that has not begun.
#[derive(Drop)]
pub(crate) struct PendingSession<V: Value, J: Naming, B: QueueNaming> {
    session_state: SessionState<V, J, B>,
    ghost new: { calls session_state.caller.pass ≡ [] },
}

/// Draws a pass for a new caller, also while others enter. Returns `PassesSpent` if none is left.
pub(crate) fn enter<V: Value, J: Naming, D: Device, R: Wait>(
    rt: &R,
    table: &FarTable<Text, V, J, D>,
) -> Result<Caller<Text, V, J>, MapFault>
    ensures new { IfOk result (λ c. calls c.pass ≡ []) }
    ensures fault { IfErr result IsOfEntering }
{
    for _ in rt.forever() {
        match table.enter() {
            Ok(caller) => return Ok(caller),
            Err(EnterFault::PassesSpent(_)) => return Err(MapFault::PassesSpent),
            Err(EnterFault::Moved(_)) => {}
        }
    }
    unreachable!()
}

/// A newcomer for each seat, who enter in the order of the seats. If `recycles` is set, each owns a frame
/// between its calls. Returns `Memory` if an allocation failed.
pub(crate) fn enter_all<V: Value, J: Naming, B: QueueNaming, D: Device, R: Wait>(
    rt: &R,
    alloc: Global,
    table: &FarTable<Text, V, J, D>,
    frames: u32,
    recycles: bool,
    mut seats: Vec<QueueSeat<Text, V, J, B>>,
) -> Result<Vec<PendingSession<V, J, B>>, MapFault>
    requires frames { 0 < frames }
    requires few { vec_len seats < 2 ^ 32 }
    ensures each { IfOk result (λ all_pending. vec_len all_pending ≡ vec_len seats) }
    ensures fault { IfErr result IsOfEntering }
{
    let Some(seat) = seats.pop() else {
        return Ok(Vec::new(alloc));
    };
    let number = seats.len() as u32;
    let mut all_pending = enter_all(rt, alloc, table, frames, recycles, seats)?;
    let mut caller = enter(rt, table)?;
    if recycles {
        caller.recycle();
    }
    let Ok(room) = RoomMaker::open(alloc, frames, number) else {
        return Err(MapFault::Memory);
    };
    let Ok(()) = all_pending.push(PendingSession {
        session_state: SessionState {
            caller,
            seat,
            room,
            number,
            told: 0,
        },
    }) else {
        return Err(MapFault::Memory);
    };
    Ok(all_pending)
}

impl<V: Value, J: Naming, B: QueueNaming, D: Device> FarMap<V, J, B, D> {
    /// Begins a session. It has made no call.
    pub(crate) fn begin(
        &self,
        alloc: Global,
        pending: PendingSession<V, J, B>,
    ) -> Session<'_, V, J, B, D>
        ensures new { calls result.pass ≡ [] }
        ensures limit { result.limit ≡ self.now.table.limit }
        ensures stats { result.stats ≡ no_calls }
    {
        let PendingSession { session_state } = pending;
        Session {
            map: self,
            alloc,
            session_state,
            stats: Stats::new(),
        }
    }

    /// The same, with a session that has seen what the mark has.
    pub(crate) fn begin_behind(
        &self,
        alloc: Global,
        pending: PendingSession<V, J, B>,
        mark: &Mark<Text, V, J>,
    ) -> Session<'_, V, J, B, D>
        ensures new { calls result.pass ≡ [] }
        ensures limit { result.limit ≡ self.now.table.limit }
        ensures stats { result.stats ≡ no_calls }
        ensures behind { IsPrefix mark.now result.pass.front }
    {
        let PendingSession { mut session_state } = pending;
        self.table.learn(&mut session_state.caller, mark);
        Session {
            map: self,
            alloc,
            session_state,
            stats: Stats::new(),
        }
    }
}
