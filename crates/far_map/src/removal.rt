//! Conditional removals.
ghost use Rattle.std.specs.Prelude.{IfOk, IfSome};
ghost use mathlib.Core.List.{IsPrefix};
ghost use Rattle.far_map.specs.Answers.{Tries, AnswersBy, Answers};
ghost use Rattle.far_map.specs.Counts.{Counts};
ghost use Rattle.far_map.specs.Removals.{call_of, found_in, IsMet};
ghost use Rattle.far_map.specs.Spares.{LosesNone};

use crate::map::FarMap;
use crate::refusal::{MapRefusal, said};
use crate::room::{MOST_TRIES, make_room};
use crate::session::Session;
use crate::upkeep::SessionState;
use crate::values::Value;
use far_device::Device;
use far_object::{Text, equal_encodings_are_equal_values};
use hash_table::{Caller, FarTable, Refusal as TableRefusal, Removal};
use std::alloc::Global;
use std::sync::Wait;
use swapper::QueueNaming;
use version_words::Naming;

/// Shows of a value that was found that its type admits it.
fn admitted<V: Value>(found: &Option<V>)
    ensures { IfSome found.now V.admits }
{
    if let Some(value) = found {
        value.admitted();
    }
}

/// Makes one removal of the table.
fn remove_now<V: Value, J: Naming, D: Device, R: Wait>(
    rt: &R,
    alloc: Global,
    table: &FarTable<Text, V, J, D>,
    caller: &mut Caller<Text, V, J>,
    key: &Text,
    expected: &V,
) -> Result<Removal<V>, TableRefusal>
    ensures tries { Tries V.enc J.limits table.now.limit caller.old.pass caller.new.pass (call_of key.now result) (found_in result) }
    ensures met { IfOk result (IsMet expected.now) }
    ensures limbo { IsPrefix caller.old.limbo caller.new.limbo }
{
    equal_encodings_are_equal_values::<V>();
    match table.remove_if(rt, alloc, caller, key, expected) {
        Ok(removal) => {
            expected.admitted();
            admitted(&removal.found);
            Ok(removal)
        }
        Err(refusal) => Err(refusal),
    }
}

/// Makes the removal. If a refusal shows a lack of room, it makes room and tries again, 1,000 times at most.
fn remove_in_room<V: Value, J: Naming, B: QueueNaming, D: Device, R: Wait>(
    rt: &R,
    alloc: Global,
    map: &FarMap<V, J, B, D>,
    session_state: &mut SessionState<V, J, B>,
    key: &Text,
    expected: &V,
) -> Result<Removal<V>, MapRefusal>
    ensures answers { AnswersBy V.enc J.limits map.now.table.limit session_state.old.caller.pass session_state.new.caller.pass (call_of key.now result) (found_in result) }
    ensures met { IfOk result (IsMet expected.now) }
    ensures none_lost { LosesNone session_state.old.caller.limbo session_state.old.seat session_state.new.caller.limbo session_state.new.seat }
{
    map.before_change(rt, session_state);
    let mut tries = MOST_TRIES;
    for _ in 0..MOST_TRIES {
        match remove_now(
            rt,
            alloc,
            &map.table,
            &mut session_state.caller,
            key,
            expected,
        ) {
            Ok(removal) => return Ok(removal),
            Err(refusal) => match make_room(rt, map, session_state, refusal, &mut tries) {
                Ok(()) => {}
                Err(why) => return Err(why),
            },
        }
    }
    match remove_now(
        rt,
        alloc,
        &map.table,
        &mut session_state.caller,
        key,
        expected,
    ) {
        Ok(removal) => Ok(removal),
        Err(refusal) => Err(said(refusal)),
    }
}

/// The same, with what follows each call.
fn remove_and_keep<V: Value, J: Naming, B: QueueNaming, D: Device, R: Wait>(
    rt: &R,
    alloc: Global,
    map: &FarMap<V, J, B, D>,
    session_state: &mut SessionState<V, J, B>,
    key: &Text,
    expected: &V,
) -> Result<Removal<V>, MapRefusal>
    ensures answers { AnswersBy V.enc J.limits map.now.table.limit session_state.old.caller.pass session_state.new.caller.pass (call_of key.now result) (found_in result) }
    ensures met { IfOk result (IsMet expected.now) }
    ensures none_lost { LosesNone session_state.old.caller.limbo session_state.old.seat session_state.new.caller.limbo session_state.new.seat }
{
    let removal = remove_in_room(rt, alloc, map, session_state, key, expected);
    map.after_call(rt, session_state);
    removal
}

impl<'m, V: Value, J: Naming, B: QueueNaming, D: Device> Session<'m, V, J, B, D> {
    /// Removes the key if its value is the expected one.
    pub(crate) fn take_out<R: Wait>(
        &mut self,
        rt: &R,
        key: &Text,
        expected: &V,
    ) -> Result<Removal<V>, MapRefusal>
        ensures answers { Answers V.enc J.limits self.old self.new (call_of key.now result) (found_in result) }
        ensures met { IfOk result (IsMet expected.now) }
        ensures counts { Counts self.old self.new (call_of key.now result) result }
    {
        let removal = remove_and_keep(
            rt,
            self.alloc,
            self.map,
            &mut self.session_state,
            key,
            expected,
        );
        self.stats.count_removal(&removal);
        removal
    }
}
