//! A command on one key, by calls of a session.
//!
//! # One point
//!
//! The key's value is got, and the command is carried out on it. What the command makes of the value is put,
//! or the value is removed, only if the value is still the one that was found. Otherwise all of it is done
//! again. So the reply is that of the point of the last call, and the calls before it left the map as it was.
//!
//! For example, INCR gets 5, replies 6, and puts 6 only if the key still has 5. A SET without NX, XX, GET and
//! KEEPTTL sets the same whatever the key has, so it is a single put.
ghost use Rattle.std.specs.Prelude.{◌≡◌, ◌++◌, ℕ, List, take, IfOk, OnOk, OnErr};
ghost use Rattle.resp.specs.Replies.{Token, Failure, token};
ghost use Rattle.key_commands.specs.Doing.{Does};
ghost use Rattle.table_core.specs.Lent.{lent_value};
ghost use Rattle.far_server.specs.Keyed.{IsTried, IsEnded, IsOnStored, IsKeyed};
ghost use Rattle.stored_keys.specs.StoredKeys.{stored_key};

use crate::change::settle;
use crate::context::Workspace;
use crate::deadlines::is_over;
use crate::refusal::{KEY_TOO_LONG, OVERTAKEN, no_room, text_with, told_as};
use crate::reserve::has_room_for;
use crate::room::has_room;
use crate::statistics::count_refusal;
use crate::usage::FarUsage;
use far_blob::Blob;
use far_map::{Calls, MapRefusal, Value, text};
use far_object::Text;
use key_commands::{Effect, KeyCommand, apply, is_blind};
use resp::push_failure;
use server_commands::{DeviceReason, Statistic, Statistics};
use std::alloc::{AllocError, Global};
use std::sync::Wait;
use stored_keys::{Keyspace, LONGEST_KEY, put_stored_key};

/// How many times a command is tried while others change its key.
const MOST_TRIES: u32 = 1_000;

/// What is asked of a key: the command, the time, the bound of values, where the key is stored, and where to find
/// out why a device failed.
#[derive(Clone, Copy)]
pub(crate) struct Asking<'a> {
    pub(crate) command: KeyCommand<'a>,
    pub(crate) keyspace: Keyspace,
    /// In milliseconds since 1970.
    pub(crate) now: u64,
    /// The most bytes of a value.
    pub(crate) most: u32,
    /// Where a device that fails reports why.
    pub(crate) usage: &'a FarUsage,
}

/// Carries the command out on the value that was found. If memory is refused, `reply` is as before.
fn apply_found(
    asking: Asking<'_>,
    found: Option<&Blob>,
    stored: &mut Vec<u8>,
    reply: &mut Vec<u8>,
) -> Result<Effect, MapRefusal>
    ensures done { IfOk result (λ effect. (r : Token) × (reply.new.items ≡ reply.old.items ++ token r) × Does asking.entry.command asking.entry.now asking.entry.most (lent_value found.entry) r effect stored.new.items) }
    ensures kept { OnErr result (reply.new.items ≡ reply.old.items) }
{
    let bytes = match found {
        Some(found) => Some(found.as_bytes()),
        None => None,
    };
    match apply(
        asking.command,
        asking.now,
        asking.most,
        bytes,
        stored,
        reply,
    ) {
        Ok(effect) => Ok(effect),
        Err(_) => Err(MapRefusal::Memory),
    }
}

/// The same, if there is also room for `beside` bytes after its reply.
fn apply_to(
    asking: Asking<'_>,
    found: Option<&Blob>,
    beside: usize,
    stored: &mut Vec<u8>,
    reply: &mut Vec<u8>,
) -> Result<Effect, MapRefusal>
    ensures done { IfOk result (λ effect. (r : Token) × (reply.new.items ≡ reply.old.items ++ token r) × Does asking.entry.command asking.entry.now asking.entry.most (lent_value found.entry) r effect stored.new.items) }
    ensures kept { OnErr result (reply.new.items ≡ reply.old.items) }
{
    let before = reply.len();
    match apply_found(asking, found, stored, reply) {
        Ok(effect) => {
            if has_room_for(beside, reply) {
                return Ok(effect);
            }
            reply.truncate(before);
            Err(MapRefusal::Memory)
        }
        Err(why) => Err(why),
    }
}

/// Counts a hit or a miss, if the command's look is counted.
fn count_found(statistics: &mut Statistics, command: KeyCommand<'_>, is_found: bool) {
    if !command.is_look_counted() {
        return;
    }
    if is_found {
        statistics.count(Statistic::Hits);
    } else {
        statistics.count(Statistic::Misses);
    }
}

/// Whether a value was found that is expired at this time.
fn has_expired(found: &Option<Blob>, now: u64) -> bool {
    match found {
        Some(value) => is_over(value, now),
        None => false,
    }
}

/// One try, which pushes its reply. Returns whether it is done. If it is not, anything may have been pushed.
fn try_once<S: Calls<Blob>, R: Wait>(
    rt: &R,
    alloc: Global,
    me: &mut S,
    key: &Text,
    asking: Asking<'_>,
    workspace: &mut Workspace,
    reply: &mut Vec<u8>,
) -> Result<bool, MapRefusal>
    ensures { (pushed : List ℕ) × (reply.new.items ≡ reply.old.items ++ pushed) × IsTried S.limits key.now asking.entry.command asking.entry.now asking.entry.most (S.shown me.old) (S.shown me.new) pushed result }
{
    let found = match me.get(rt, key) {
        Ok(found) => found,
        Err(why) => return Err(why),
    };
    let is_expired = has_expired(&found, asking.now);
    count_found(
        &mut workspace.statistics,
        asking.command,
        found.is_some() && !is_expired,
    );
    let beside = workspace.beside;
    match apply_to(asking, found.as_ref(), beside, &mut workspace.stored, reply) {
        Ok(effect) => settle(
            rt,
            alloc,
            me,
            key,
            found.as_ref(),
            is_expired,
            effect,
            workspace,
        ),
        Err(why) => Err(why),
    }
}

/// Sets the key without a look, if the command sets the same whatever the key has. Returns whether it did.
fn set_blindly<S: Calls<Blob>, R: Wait>(
    rt: &R,
    alloc: Global,
    me: &mut S,
    key: &Text,
    asking: Asking<'_>,
    workspace: &mut Workspace,
    reply: &mut Vec<u8>,
) -> Result<bool, MapRefusal>
    ensures { (pushed : List ℕ) × (reply.new.items ≡ reply.old.items ++ pushed) × IsTried S.limits key.now asking.entry.command asking.entry.now asking.entry.most (S.shown me.old) (S.shown me.new) pushed result }
{
    if !is_blind(asking.command) {
        return Ok(false);
    }
    let beside = workspace.beside;
    match apply_to(asking, None, beside, &mut workspace.stored, reply) {
        Ok(Effect::Sets) => {}
        Ok(_) => return Ok(false),
        Err(why) => return Err(why),
    }
    let value = match Blob::from_bytes(alloc, workspace.stored.as_slice()) {
        Ok(value) => value,
        Err(why) => return Err(why),
    };
    match me.put(rt, key, &value) {
        Ok(before) => {
            workspace.count_set(key, before.is_none());
            Ok(true)
        }
        Err(why) => Err(why),
    }
}

/// Tries until it is done. Returns false if others were faster each time. Anything may have been pushed then.
fn try_often<S: Calls<Blob>, R: Wait>(
    rt: &R,
    alloc: Global,
    me: &mut S,
    key: &Text,
    asking: Asking<'_>,
    workspace: &mut Workspace,
    reply: &mut Vec<u8>,
) -> Result<bool, MapRefusal>
    ensures { (pushed : List ℕ) × (reply.new.items ≡ reply.old.items ++ pushed) × IsEnded S.limits key.now asking.entry.command asking.entry.now asking.entry.most (S.shown me.old) (S.shown me.new) pushed result }
{
    let before = reply.len();
    match set_blindly(rt, alloc, me, key, asking, workspace, reply) {
        Ok(true) => return Ok(true),
        Ok(false) => {}
        Err(why) => return Err(why),
    }
    for _ in 0..MOST_TRIES {
        reply.truncate(before);
        match try_once(rt, alloc, me, key, asking, workspace, reply) {
            Ok(true) => return Ok(true),
            Ok(false) => {}
            Err(why) => return Err(why),
        }
    }
    Ok(false)
}

/// The stored key of a client's key in a keyspace. It is made in `workspace.stored`, in which the value is made later.
pub(crate) fn stored_text(
    alloc: Global,
    keyspace: Keyspace,
    key: &[u8],
    workspace: &mut Workspace,
) -> Result<Text, MapRefusal>
    ensures { IfOk result (λ text. text ≡ stored_key keyspace key.now) }
{
    match put_stored_key(keyspace, key, &mut workspace.stored) {
        Ok(()) => text(alloc, workspace.stored.as_slice()),
        Err(_) => Err(MapRefusal::Memory),
    }
}

/// Tries the command on the stored key of this client's key.
fn try_key<S: Calls<Blob>, R: Wait>(
    rt: &R,
    alloc: Global,
    me: &mut S,
    key: &[u8],
    asking: Asking<'_>,
    workspace: &mut Workspace,
    reply: &mut Vec<u8>,
) -> Result<bool, MapRefusal>
    ensures { (pushed : List ℕ) × (reply.new.items ≡ reply.old.items ++ pushed) × IsEnded S.limits (stored_key asking.entry.keyspace key.now) asking.entry.command asking.entry.now asking.entry.most (S.shown me.old) (S.shown me.new) pushed result }
{
    match stored_text(alloc, asking.keyspace, key, workspace) {
        Ok(key) => try_often(rt, alloc, me, &key, asking, workspace, reply),
        Err(why) => Err(why),
    }
}

/// Puts an error in place of what was pushed after the first `before` bytes.
fn fail(before: usize, text: &[u8], reply: &mut Vec<u8>) -> Result<(), AllocError>
    ensures done { OnOk result (reply.new.items ≡ take before reply.old.items ++ token (Failure text.now)) }
    ensures kept { OnErr result (reply.new.items ≡ take before reply.old.items) }
{
    reply.truncate(before);
    push_failure(reply, text)
}

/// Carries out a command on a key, and pushes its reply, whether there is room in frames or not.
fn answer_now<S: Calls<Blob>, R: Wait>(
    rt: &R,
    alloc: Global,
    me: &mut S,
    key: &[u8],
    asking: Asking<'_>,
    workspace: &mut Workspace,
    reply: &mut Vec<u8>,
) -> Result<(), AllocError>
    ensures done { OnOk result ((r : Token) × (reply.new.items ≡ reply.old.items ++ token r) × IsOnStored S.limits (stored_key asking.entry.keyspace key.now) asking.entry.command asking.entry.now asking.entry.most (S.shown me.old) (S.shown me.new) r) }
    ensures kept { OnErr result (reply.new.items ≡ reply.old.items) }
{
    let before = reply.len();
    match try_key(rt, alloc, me, key, asking, workspace, reply) {
        Ok(true) => Ok(()),
        Ok(false) => fail(before, OVERTAKEN, reply),
        Err(why) => {
            let why = told_as(why, workspace.is_far);
            count_refusal(&mut workspace.statistics, why);
            fail(before, text_with(why, asking.usage.last_reason()), reply)
        }
    }
}

/// Why no device takes an object, if one failed just now.
fn full_reason(asking: Asking<'_>, workspace: &Workspace) -> Option<DeviceReason> {
    if workspace.is_far {
        asking.usage.reason_at(asking.now)
    } else {
        None
    }
}

/// Carries out a command on a key if there is room in frames, and refuses it otherwise.
fn answer_in_room<S: Calls<Blob>, R: Wait>(
    rt: &R,
    alloc: Global,
    me: &mut S,
    key: &[u8],
    asking: Asking<'_>,
    workspace: &mut Workspace,
    reply: &mut Vec<u8>,
) -> Result<(), AllocError>
    ensures done { OnOk result ((r : Token) × (reply.new.items ≡ reply.old.items ++ token r) × IsOnStored S.limits (stored_key asking.entry.keyspace key.now) asking.entry.command asking.entry.now asking.entry.most (S.shown me.old) (S.shown me.new) r) }
    ensures kept { OnErr result (reply.new.items ≡ reply.old.items) }
{
    if has_room(rt, me, workspace) {
        return answer_now(rt, alloc, me, key, asking, workspace, reply);
    }
    workspace.statistics.count(Statistic::RefusedMemory);
    push_failure(reply, no_room(full_reason(asking, workspace)))
}

/// Carries out a command on a key that is short enough to be stored. Only a command that may leave more bytes
/// than it found needs room in frames.
fn answer_short<S: Calls<Blob>, R: Wait>(
    rt: &R,
    alloc: Global,
    me: &mut S,
    key: &[u8],
    asking: Asking<'_>,
    workspace: &mut Workspace,
    reply: &mut Vec<u8>,
) -> Result<(), AllocError>
    ensures done { OnOk result ((r : Token) × (reply.new.items ≡ reply.old.items ++ token r) × IsOnStored S.limits (stored_key asking.entry.keyspace key.now) asking.entry.command asking.entry.now asking.entry.most (S.shown me.old) (S.shown me.new) r) }
    ensures kept { OnErr result (reply.new.items ≡ reply.old.items) }
{
    if asking.command.row().flags.may_grow() {
        answer_in_room(rt, alloc, me, key, asking, workspace, reply)
    } else {
        answer_now(rt, alloc, me, key, asking, workspace, reply)
    }
}

/// Carries out a command on a client's key, and pushes its reply, which is one token. A key that is too long
/// to be stored is refused without a call. If memory is refused for the reply, `reply` is as before.
pub(crate) fn answer_key<S: Calls<Blob>, R: Wait>(
    rt: &R,
    alloc: Global,
    me: &mut S,
    key: &[u8],
    asking: Asking<'_>,
    workspace: &mut Workspace,
    reply: &mut Vec<u8>,
) -> Result<(), AllocError>
    ensures done { OnOk result ((r : Token) × (reply.new.items ≡ reply.old.items ++ token r) × IsKeyed S.limits asking.entry.keyspace key.now asking.entry.command asking.entry.now asking.entry.most (S.shown me.old) (S.shown me.new) r) }
    ensures kept { OnErr result (reply.new.items ≡ reply.old.items) }
{
    if key.len() > LONGEST_KEY {
        return push_failure(reply, KEY_TOO_LONG);
    }
    answer_short(rt, alloc, me, key, asking, workspace, reply)
}
