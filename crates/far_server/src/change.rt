//! The change that a command makes to a value that was found.
//!
//! It is made only while that value is still there. So a command that others overtook has changed nothing,
//! and tries again.
ghost use Rattle.std.specs.Prelude.{◌≡◌, ◌≢◌, MatchBool, Some};
ghost use Rattle.key_commands.specs.declared.key_command.Effect.TheVariants as effects;
ghost use Rattle.table_core.specs.Lent.{lent_value};
ghost use Rattle.far_server.specs.Keyed.{IsSettled};

use crate::context::Workspace;
use far_blob::Blob;
use far_map::{Calls, MapRefusal, Value};
use far_object::Text;
use key_commands::Effect;
use server_commands::Statistic;
use std::alloc::Global;
use std::sync::Wait;

/// Puts `workspace.stored` over the value that was found, if that is still there. Returns whether it was.
fn put_over<S: Calls<Blob>, R: Wait>(
    rt: &R,
    alloc: Global,
    me: &mut S,
    key: &Text,
    found: Option<&Blob>,
    workspace: &mut Workspace,
) -> Result<bool, MapRefusal>
    ensures { IsSettled S.limits key.now (lent_value found.entry) effects.Sets workspace.old.stored.items (S.shown me.old) (S.shown me.new) result }
{
    let value = match Blob::from_bytes(alloc, workspace.stored.as_slice()) {
        Ok(value) => value,
        Err(why) => return Err(why),
    };
    match me.put_if(rt, key, found, &value) {
        Ok(before) => {
            let is_done = are_same(before.as_ref(), found);
            if is_done {
                workspace.count_set(key, found.is_none());
            }
            Ok(is_done)
        }
        Err(why) => Err(why),
    }
}

/// Removes the value that was found, if it is still there. Returns whether it was.
fn take_out<S: Calls<Blob>, R: Wait>(
    rt: &R,
    me: &mut S,
    key: &Text,
    found: &Blob,
    workspace: &mut Workspace,
) -> Result<bool, MapRefusal>
    ensures { IsSettled S.limits key.now (Some found.now) effects.Removes workspace.old.stored.items (S.shown me.old) (S.shown me.new) result }
{
    match me.remove_if(rt, key, found) {
        Ok(removal) => {
            workspace.count_removed(key, removal.removed);
            Ok(removal.removed)
        }
        Err(why) => Err(why),
    }
}

/// Makes the change to the value that was found, if that is still there. Returns whether it was. If there is
/// nothing to change, it makes no call and returns true.
fn change<S: Calls<Blob>, R: Wait>(
    rt: &R,
    alloc: Global,
    me: &mut S,
    key: &Text,
    found: Option<&Blob>,
    effect: Effect,
    workspace: &mut Workspace,
) -> Result<bool, MapRefusal>
    ensures { IsSettled S.limits key.now (lent_value found.entry) effect workspace.old.stored.items (S.shown me.old) (S.shown me.new) result }
{
    match (effect, found) {
        (Effect::Sets, _) => put_over(rt, alloc, me, key, found, workspace),
        (Effect::Removes, Some(found)) => take_out(rt, me, key, found, workspace),
        _ => Ok(true),
    }
}

/// The same for a value that may be expired. Such a value is counted once it is gone.
pub(crate) fn settle<S: Calls<Blob>, R: Wait>(
    rt: &R,
    alloc: Global,
    me: &mut S,
    key: &Text,
    found: Option<&Blob>,
    is_expired: bool,
    effect: Effect,
    workspace: &mut Workspace,
) -> Result<bool, MapRefusal>
    ensures { IsSettled S.limits key.now (lent_value found.entry) effect workspace.old.stored.items (S.shown me.old) (S.shown me.new) result }
{
    let settled = change(rt, alloc, me, key, found, effect, workspace);
    let is_gone = is_expired && matches!(settled, Ok(true));
    workspace
        .statistics
        .count_if(Statistic::ExpiredKeys, is_gone);
    settled
}

/// Whether both are none, or both have the same bytes.
fn are_same(one: Option<&Blob>, other: Option<&Blob>) -> bool
    ensures { MatchBool result (lent_value one.entry ≡ lent_value other.entry) (lent_value one.entry ≢ lent_value other.entry) }
{
    match (one, other) {
        (None, None) => true,
        (Some(one), Some(other)) => one.as_bytes() == other.as_bytes(),
        _ => false,
    }
}
