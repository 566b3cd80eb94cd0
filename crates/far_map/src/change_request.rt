//! A change that a session is asked for. Its key and values are lent.
ghost use mathlib.Core.List.{IsPrefix};
ghost use Rattle.far_map.specs.Asks.{asked};
ghost use Rattle.far_map.specs.Answers.{Tries};

use crate::values::Value;
use far_device::Device;
use far_object::Text;
use hash_table::{Caller, FarTable, Refusal as TableRefusal};
use std::alloc::Global;
use std::sync::Wait;
use version_words::Naming;

/// A change of the map.
#[derive(Drop)]
pub(crate) enum ChangeRequest<'a, V: Value> {
    Put(&'a Text, &'a V),
    Remove(&'a Text),
    PutIf(&'a Text, Option<&'a V>, &'a V),
}

/// Makes one call of the table.
#[tactic(auto, using(crate::proofs::Trying::change_refused))]
pub(crate) fn call<V: Value, J: Naming, D: Device, R: Wait>(
    rt: &R,
    alloc: Global,
    table: &FarTable<Text, V, J, D>,
    caller: &mut Caller<Text, V, J>,
    ask: &ChangeRequest<'_, V>,
) -> Result<Option<V>, TableRefusal>
    ensures tries { Tries V.enc J.limits table.now.limit caller.old.pass caller.new.pass (asked ask.now) result }
    ensures limbo { IsPrefix caller.old.limbo caller.new.limbo }
{
    match ask {
        ChangeRequest::Put(key, value) => match table.put(rt, alloc, caller, key, value) {
            Ok(answer) => Ok(answer),
            Err(refusal) => Err(refusal),
        },
        ChangeRequest::Remove(key) => match table.remove(rt, alloc, caller, key) {
            Ok(answer) => Ok(answer),
            Err(refusal) => Err(refusal),
        },
        ChangeRequest::PutIf(key, expected, value) => match table.put_if(
            rt, alloc, caller, key, *expected, value,
        ) {
            Ok(answer) => Ok(answer),
            Err(refusal) => Err(refusal),
        },
    }
}
