//! A value that is held in its frame from one call to another.
ghost use Rattle.std.specs.Prelude.{◌≡◌, IfErr};
ghost use mathlib.Core.List.{IsPrefix};
ghost use Rattle.table_core.specs.declared.operation.Operation.TheVariants.{Get};
ghost use Rattle.far_map.specs.Answers.{IsRefused, Tries, AnswersBy, Answers, held_in};
ghost use Rattle.version_words.specs.Views.{Goes};
ghost use Rattle.far_map.specs.Refusals.{said};
ghost use Rattle.far_map.specs.Counts.{Counts};
ghost use Rattle.far_map.specs.Spares.{LosesNone};

use crate::map::FarMap;
use crate::refusal::{MapRefusal, said};
use crate::room::{MOST_TRIES, make_room};
use crate::session::Session;
use crate::upkeep::SessionState;
use crate::values::Value;
use far_device::Device;
use far_object::Text;
use hash_table::{Caller, FarTable, Refusal as TableRefusal, TableScope};
use std::alloc::Global;
use std::sync::Wait;
use swapper::QueueNaming;
use version_words::Naming;

/// A value that is held, or none.
pub(crate) type Held<'a, V, J> = Option<TableScope<'a, Text, V, J>>;

/// One try to fetch the key's object into a frame. It is no refusal if another thread was faster.
fn bring<V: Value, J: Naming, D: Device, R: Wait>(
    rt: &R,
    alloc: Global,
    table: &FarTable<Text, V, J, D>,
    caller: &mut Caller<Text, V, J>,
    key: &Text,
) -> Result<(), TableRefusal>
    ensures goes { Goes caller.old.pass caller.new.pass }
    ensures refused { IfErr result (λ e. IsRefused V.enc J.limits table.now.limit caller.old.pass caller.new.pass (Get key.now) (said e)) }
    ensures limbo { IsPrefix caller.old.limbo caller.new.limbo }
{
    match table.fetch(rt, alloc, caller, key) {
        Ok(_) => Ok(()),
        Err(TableRefusal::Moved) => Ok(()),
        Err(TableRefusal::Missed) => Ok(()),
        Err(refusal) => Err(refusal),
    }
}

/// Opens a scope on the key's value. While the object is not in a frame, it is fetched first.
pub(crate) fn open_near<'a, V: Value, J: Naming, D: Device, R: Wait>(
    rt: &R,
    alloc: Global,
    table: &'a FarTable<Text, V, J, D>,
    caller: &mut Caller<Text, V, J>,
    key: &Text,
) -> Result<Held<'a, V, J>, TableRefusal>
    ensures tries { Tries V.enc J.limits table.now.limit caller.old.pass caller.new.pass (Get key.now) (held_in (λ s. s.value) result) }
    ensures limbo { IsPrefix caller.old.limbo caller.new.limbo }
{
    for _ in rt.forever() {
        match table.open_scope(caller, key) {
            Ok(held) => return Ok(held),
            Err(TableRefusal::Far) => match bring(rt, alloc, table, caller, key) {
                Ok(()) => {}
                Err(refusal) => return Err(refusal),
            },
            Err(_) => {}
        }
    }
    unreachable!()
}

/// Opens a scope on the key's value. If a refusal shows a lack of room, it makes room and tries again, 1,000
/// times at most.
fn open<'a, V: Value, J: Naming, B: QueueNaming, D: Device, R: Wait>(
    rt: &R,
    alloc: Global,
    map: &'a FarMap<V, J, B, D>,
    session_state: &mut SessionState<V, J, B>,
    key: &Text,
) -> Result<Held<'a, V, J>, MapRefusal>
    ensures answers { AnswersBy V.enc J.limits map.now.table.limit session_state.old.caller.pass session_state.new.caller.pass (Get key.now) (held_in (λ s. s.value) result) }
    ensures none_lost { LosesNone session_state.old.caller.limbo session_state.old.seat session_state.new.caller.limbo session_state.new.seat }
{
    let mut tries = MOST_TRIES;
    for _ in 0..MOST_TRIES {
        match open_near(rt, alloc, &map.table, &mut session_state.caller, key) {
            Ok(held) => return Ok(held),
            Err(refusal) => match make_room(rt, map, session_state, refusal, &mut tries) {
                Ok(()) => {}
                Err(why) => return Err(why),
            },
        }
    }
    match open_near(rt, alloc, &map.table, &mut session_state.caller, key) {
        Ok(held) => Ok(held),
        Err(refusal) => Err(said(refusal)),
    }
}

/// The same, with what follows each call.
fn open_and_keep<'a, V: Value, J: Naming, B: QueueNaming, D: Device, R: Wait>(
    rt: &R,
    alloc: Global,
    map: &'a FarMap<V, J, B, D>,
    session_state: &mut SessionState<V, J, B>,
    key: &Text,
) -> Result<Held<'a, V, J>, MapRefusal>
    ensures answers { AnswersBy V.enc J.limits map.now.table.limit session_state.old.caller.pass session_state.new.caller.pass (Get key.now) (held_in (λ s. s.value) result) }
    ensures none_lost { LosesNone session_state.old.caller.limbo session_state.old.seat session_state.new.caller.limbo session_state.new.seat }
{
    let held = open(rt, alloc, map, session_state, key);
    map.after_call(rt, session_state);
    held
}

impl<'m, V: Value, J: Naming, B: QueueNaming, D: Device> Session<'m, V, J, B, D> {
    /// Holds the key's value in its frame. `None` if the key has no value.
    pub(crate) fn take_hold<R: Wait>(
        &mut self,
        rt: &R,
        key: &Text,
    ) -> Result<Held<'m, V, J>, MapRefusal>
        ensures answers { Answers V.enc J.limits self.old self.new (Get key.now) (held_in (λ s. s.value) result) }
        ensures counts { Counts self.old self.new (Get key.now) result }
    {
        let held = open_and_keep(rt, self.alloc, self.map, &mut self.session_state, key);
        self.stats.count_get::<V, _>(&held);
        held
    }
}
