//! Gets: a value is copied, or read in its frame. They need no room, and are tried once.
ghost use Rattle.std.specs.Prelude.{◌≡◌, Some, IfErr};
ghost use mathlib.Core.List.{IsPrefix};
ghost use Rattle.std.specs.Fn.{FnOnceReturnsAt};
ghost use Rattle.table_core.specs.declared.operation.Operation.TheVariants.{Get};
ghost use Rattle.far_map.specs.Answers.{AnswersBy, Answers, IsReadBy, IsRead, IsFound};
ghost use Rattle.far_map.specs.Counts.{Counts};
ghost use Rattle.far_map.specs.Refusals.{IsUnread};
ghost use Rattle.far_map.specs.Spares.{LosesNone};

use crate::held_value::open_near;
use crate::map::FarMap;
use crate::refusal::{MapRefusal, said};
use crate::session::Session;
use crate::upkeep::SessionState;
use crate::values::Value;
use far_device::Device;
use far_object::Text;
use hash_table::{Caller, FarTable, TableScope};
use std::alloc::Global;
use std::sync::Wait;
use swapper::QueueNaming;
use version_words::Naming;

/// Copies the key's value.
fn copy_value<V: Value, J: Naming, D: Device, R: Wait>(
    rt: &R,
    alloc: Global,
    table: &FarTable<Text, V, J, D>,
    caller: &mut Caller<Text, V, J>,
    key: &Text,
) -> Result<Option<V>, MapRefusal>
    ensures answers { AnswersBy V.enc J.limits table.now.limit caller.old.pass caller.new.pass (Get key.now) result }
    ensures unread { IfErr result (IsUnread J.limits.honest) }
    ensures limbo { IsPrefix caller.old.limbo caller.new.limbo }
{
    match table.get(rt, alloc, caller, key) {
        Ok(found) => Ok(found),
        Err(refusal) => Err(said(refusal)),
    }
}

/// The same, with what follows each call.
fn copy_and_keep<V: Value, J: Naming, B: QueueNaming, D: Device, R: Wait>(
    rt: &R,
    alloc: Global,
    map: &FarMap<V, J, B, D>,
    session_state: &mut SessionState<V, J, B>,
    key: &Text,
) -> Result<Option<V>, MapRefusal>
    ensures answers { AnswersBy V.enc J.limits map.now.table.limit session_state.old.caller.pass session_state.new.caller.pass (Get key.now) result }
    ensures unread { IfErr result (IsUnread J.limits.honest) }
    ensures none_lost { LosesNone session_state.old.caller.limbo session_state.old.seat session_state.new.caller.limbo session_state.new.seat }
{
    let copied = copy_value(rt, alloc, &map.table, &mut session_state.caller, key);
    map.after_call(rt, session_state);
    copied
}

/// What the reader returns for these bytes.
fn read_bytes<T, F: FnOnce(&[u8]) -> T>(bytes: &[u8], read: F) -> T
    requires { F.IsAlwaysCallable read }
    ensures { FnOnceReturnsAt F.FnOnce read bytes.now result }
{
    read(bytes)
}

/// What the reader returns for the value of a scope, which is then closed.
fn read_held<V: Value, J: Naming, T, F: FnOnce(&[u8]) -> T>(
    scope: TableScope<'_, Text, V, J>,
    read: F,
) -> T
    requires { F.IsAlwaysCallable read }
    ensures { (v : V) × (scope.entry.value ≡ Some v) × FnOnceReturnsAt F.FnOnce read (V.shows v) result }
{
    let made = read(V::part(scope.bytes()));
    scope.close();
    made
}

/// What the reader returns for the key's value in its frame. If the object can't be brought into a frame, the
/// value is copied for it.
fn read_value<
    V: Value,
    J: Naming,
    B: QueueNaming,
    D: Device,
    T,
    F: FnOnce(&[u8]) -> T + Drop,
    R: Wait,
>(
    rt: &R,
    alloc: Global,
    map: &FarMap<V, J, B, D>,
    session_state: &mut SessionState<V, J, B>,
    key: &Text,
    read: F,
) -> Result<Option<T>, MapRefusal>
    requires { F.IsAlwaysCallable read }
    ensures read { IsReadBy V.enc J.limits map.now.table.limit session_state.old.caller.pass session_state.new.caller.pass key.now (λ v. FnOnceReturnsAt F.FnOnce read (V.shows v)) result }
    ensures unread { IfErr result (IsUnread J.limits.honest) }
    ensures none_lost { LosesNone session_state.old.caller.limbo session_state.old.seat session_state.new.caller.limbo session_state.new.seat }
{
    match open_near(rt, alloc, &map.table, &mut session_state.caller, key) {
        Ok(None) => return Ok(None),
        Ok(Some(scope)) => return Ok(Some(read_held(scope, read))),
        Err(_) => {}
    }
    match copy_value(rt, alloc, &map.table, &mut session_state.caller, key) {
        Ok(None) => Ok(None),
        Ok(Some(value)) => Ok(Some(read_bytes(value.as_bytes(), read))),
        Err(refusal) => Err(refusal),
    }
}

/// The same, with what follows each call.
fn read_and_keep<
    V: Value,
    J: Naming,
    B: QueueNaming,
    D: Device,
    T,
    F: FnOnce(&[u8]) -> T + Drop,
    R: Wait,
>(
    rt: &R,
    alloc: Global,
    map: &FarMap<V, J, B, D>,
    session_state: &mut SessionState<V, J, B>,
    key: &Text,
    read: F,
) -> Result<Option<T>, MapRefusal>
    requires { F.IsAlwaysCallable read }
    ensures read { IsReadBy V.enc J.limits map.now.table.limit session_state.old.caller.pass session_state.new.caller.pass key.now (λ v. FnOnceReturnsAt F.FnOnce read (V.shows v)) result }
    ensures unread { IfErr result (IsUnread J.limits.honest) }
    ensures none_lost { LosesNone session_state.old.caller.limbo session_state.old.seat session_state.new.caller.limbo session_state.new.seat }
{
    let made = read_value(rt, alloc, map, session_state, key, read);
    map.after_call(rt, session_state);
    made
}

impl<'m, V: Value, J: Naming, B: QueueNaming, D: Device> Session<'m, V, J, B, D> {
    /// Copies the key's value. `None` if the key has none.
    pub(crate) fn copy<R: Wait>(&mut self, rt: &R, key: &Text) -> Result<Option<V>, MapRefusal>
        ensures answers { Answers V.enc J.limits self.old self.new (Get key.now) result }
        ensures unread { IfErr result (IsUnread J.limits.honest) }
        ensures counts { Counts self.old self.new (Get key.now) result }
    {
        let copied = copy_and_keep(rt, self.alloc, self.map, &mut self.session_state, key);
        self.stats.count_get::<V, _>(&copied);
        copied
    }

    /// What the reader returns for the key's value. `None` if the key has none.
    pub(crate) fn read<T, F: FnOnce(&[u8]) -> T + Drop, R: Wait>(
        &mut self,
        rt: &R,
        key: &Text,
        read: F,
    ) -> Result<Option<T>, MapRefusal>
        requires { F.IsAlwaysCallable read }
        ensures read { IsRead V.enc J.limits self.old self.new key.now (λ v. FnOnceReturnsAt F.FnOnce read (V.shows v)) result }
        ensures unread { IfErr result (IsUnread J.limits.honest) }
        ensures counts { Counts self.old self.new (Get key.now) result }
    {
        let made = read_and_keep(rt, self.alloc, self.map, &mut self.session_state, key, read);
        self.stats.count_get::<V, _>(&made);
        made
    }

    /// Whether the key has a value.
    pub(crate) fn find<R: Wait>(&mut self, rt: &R, key: &Text) -> Result<bool, MapRefusal>
        ensures found { IsFound V.enc J.limits self.old self.new key.now result }
        ensures unread { IfErr result (IsUnread J.limits.honest) }
        ensures counts { Counts self.old self.new (Get key.now) result }
    {
        match self.read(rt, key, |_| ()) {
            Ok(found) => Ok(found.is_some()),
            Err(refusal) => Err(refusal),
        }
    }
}
