//! A change, from the first try to its answer or a final refusal.
ghost use Rattle.far_map.specs.Asks.{asked};
ghost use Rattle.far_map.specs.Answers.{AnswersBy};
ghost use Rattle.far_map.specs.Spares.{LosesNone};

use crate::change_request::{ChangeRequest, call};
use crate::map::FarMap;
use crate::refusal::{MapRefusal, said};
use crate::room::{MOST_TRIES, make_room};
use crate::upkeep::SessionState;
use crate::values::Value;
use far_device::Device;
use std::alloc::Global;
use std::sync::Wait;
use swapper::QueueNaming;
use version_words::Naming;

/// Makes the change. If a refusal shows a lack of room, it makes room and tries again, 1,000 times at most.
fn answer<V: Value, J: Naming, B: QueueNaming, D: Device, R: Wait>(
    rt: &R,
    alloc: Global,
    map: &FarMap<V, J, B, D>,
    session_state: &mut SessionState<V, J, B>,
    ask: &ChangeRequest<'_, V>,
) -> Result<Option<V>, MapRefusal>
    ensures answers { AnswersBy V.enc J.limits map.now.table.limit session_state.old.caller.pass session_state.new.caller.pass (asked ask.now) result }
    ensures none_lost { LosesNone session_state.old.caller.limbo session_state.old.seat session_state.new.caller.limbo session_state.new.seat }
{
    map.before_change(rt, session_state);
    let mut tries = MOST_TRIES;
    for _ in 0..MOST_TRIES {
        match call(rt, alloc, &map.table, &mut session_state.caller, ask) {
            Ok(answer) => return Ok(answer),
            Err(refusal) => match make_room(rt, map, session_state, refusal, &mut tries) {
                Ok(()) => {}
                Err(why) => return Err(why),
            },
        }
    }
    match call(rt, alloc, &map.table, &mut session_state.caller, ask) {
        Ok(answer) => Ok(answer),
        Err(refusal) => Err(said(refusal)),
    }
}

/// The same, with what follows each call.
pub(crate) fn answer_and_keep<V: Value, J: Naming, B: QueueNaming, D: Device, R: Wait>(
    rt: &R,
    alloc: Global,
    map: &FarMap<V, J, B, D>,
    session_state: &mut SessionState<V, J, B>,
    ask: &ChangeRequest<'_, V>,
) -> Result<Option<V>, MapRefusal>
    ensures answers { AnswersBy V.enc J.limits map.now.table.limit session_state.old.caller.pass session_state.new.caller.pass (asked ask.now) result }
    ensures none_lost { LosesNone session_state.old.caller.limbo session_state.old.seat session_state.new.caller.limbo session_state.new.seat }
{
    let answered = answer(rt, alloc, map, session_state, ask);
    map.after_call(rt, session_state);
    answered
}
