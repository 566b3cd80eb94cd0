//! What is done between two tries of a call.
//!
//! # A call is tried again only when there may be room
//!
//! Each try of a call reads its bucket, from a device if the object is far. So a call that found no frame
//! waits until one was emptied or one is listed as free, and is tried again only then. The list is a hint,
//! because another thread may take the frame first. So all that is done for one call, its tries and its
//! waits, is counted together.
ghost use Rattle.std.specs.Prelude.{◌≡◌, ◌⊎◌, IfErr};
ghost use Rattle.far_map.specs.Refusals.{said, IsOfRoom};
ghost use Rattle.far_map.specs.Spares.{LosesNone};
ghost use Rattle.version_words.specs.Views.{Goes};

use crate::map::FarMap;
use crate::refusal::{MapRefusal, said};
use crate::upkeep::SessionState;
use crate::values::Value;
use far_device::Device;
use hash_table::Refusal as TableRefusal;
use std::sync::Wait;
use std::thread::yield_now;
use swapper::QueueNaming;
use version_words::Naming;

/// How many further tries a call has.
pub(crate) const MOST_TRIES: u32 = 1_000;

/// Has retired words reclaimed. If none was because the device failed, the call is refused at once, because
/// each further try would ask the device again. If none was for another reason, other threads run first: a
/// reader may be in a frame that waits.
fn free_spares<V: Value, J: Naming, B: QueueNaming, D: Device, R: Wait>(
    rt: &R,
    map: &FarMap<V, J, B, D>,
    session_state: &mut SessionState<V, J, B>,
) -> Result<(), MapRefusal>
    ensures pass { Goes session_state.old.caller.pass session_state.new.caller.pass }
    ensures none_lost { LosesNone session_state.old.caller.limbo session_state.old.seat session_state.new.caller.limbo session_state.new.seat }
    ensures why { IfErr result (IsOfRoom J.limits session_state.new.caller.pass.front) }
{
    map.settle(rt, session_state);
    let collected = map.collect(rt);
    if collected.reclaimed > 0 {
        return Ok(());
    }
    if collected.failed {
        return Err(MapRefusal::Device);
    }
    yield_now();
    Ok(())
}

/// Empties a frame, and returns whether one was emptied. A refusal that is final is that of the call.
fn empty_frame<V: Value, J: Naming, B: QueueNaming, D: Device, R: Wait>(
    rt: &R,
    map: &FarMap<V, J, B, D>,
    session_state: &mut SessionState<V, J, B>,
) -> Result<bool, MapRefusal>
    ensures pass { Goes session_state.old.caller.pass session_state.new.caller.pass }
    ensures none_lost { LosesNone session_state.old.caller.limbo session_state.old.seat session_state.new.caller.limbo session_state.new.seat }
    ensures why { IfErr result (IsOfRoom J.limits session_state.new.caller.pass.front) }
{
    match map.empty_frames(rt, session_state) {
        Err(TableRefusal::Memory) => Err(MapRefusal::Memory),
        Err(TableRefusal::Device) => Err(MapRefusal::Device),
        Err(TableRefusal::NamesSpent) => Err(MapRefusal::NamesSpent),
        Ok(true) => Ok(true),
        // Frames may wait for retired words, and these for a removal that fails.
        _ => match free_spares(rt, map, session_state) {
            Ok(()) => Ok(false),
            Err(why) => Err(why),
        },
    }
}

/// Waits until there may be a frame for the caller, for `tries` rounds at most, which it counts down. After a
/// round that emptied none, other threads run first: they may hold frames, and wait for this thread's
/// processor.
fn wait_for_frame<V: Value, J: Naming, B: QueueNaming, D: Device, R: Wait>(
    rt: &R,
    map: &FarMap<V, J, B, D>,
    session_state: &mut SessionState<V, J, B>,
    tries: &mut u32,
) -> Result<(), MapRefusal>
    ensures pass { Goes session_state.old.caller.pass session_state.new.caller.pass }
    ensures none_lost { LosesNone session_state.old.caller.limbo session_state.old.seat session_state.new.caller.limbo session_state.new.seat }
    ensures why { IfErr result (λ why. (why ≡ said TableRefusal.NoFrame) ⊎ IsOfRoom J.limits session_state.new.caller.pass.front why) }
{
    for _ in 0..*tries {
        *tries = tries.saturating_sub(1);
        match empty_frame(rt, map, session_state) {
            Ok(true) => return Ok(()),
            Ok(false) => {}
            Err(why) => return Err(why),
        }
        if map.table.has_free() || session_state.caller.owns_frame() {
            return Ok(());
        }
    }
    Err(said(TableRefusal::NoFrame))
}

/// Makes room after a refusal. It empties a frame if none was free, and reclaims retired words if too many
/// wait. `tries` is how often that may still be done for this call. Every other refusal is that of the call.
pub(crate) fn make_room<V: Value, J: Naming, B: QueueNaming, D: Device, R: Wait>(
    rt: &R,
    map: &FarMap<V, J, B, D>,
    session_state: &mut SessionState<V, J, B>,
    refusal: TableRefusal,
    tries: &mut u32,
) -> Result<(), MapRefusal>
    ensures pass { Goes session_state.old.caller.pass session_state.new.caller.pass }
    ensures none_lost { LosesNone session_state.old.caller.limbo session_state.old.seat session_state.new.caller.limbo session_state.new.seat }
    ensures why { IfErr result (λ why. (why ≡ said refusal) ⊎ IsOfRoom J.limits session_state.new.caller.pass.front why) }
{
    match refusal {
        TableRefusal::NoFrame => wait_for_frame(rt, map, session_state, tries),
        TableRefusal::LimboFull => {
            *tries = tries.saturating_sub(1);
            match free_spares(rt, map, session_state) {
                Ok(()) => Ok(()),
                Err(why) => Err(why),
            }
        }
        _ => Err(said(refusal)),
    }
}
