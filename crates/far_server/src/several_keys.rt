//! Commands on several keys: one key after another, each by separate calls.
ghost use Rattle.std.specs.Prelude.{◌≡◌, ◌≢◌, ◌<◌, ◌^◌, ◌++◌, ◌∷◌, [], ℕ, List, length, take, MatchBool, MatchOption, OnOk, OnErr};
ghost use Rattle.std.specs.List.{flat_map};
ghost use Rattle.resp.specs.Replies.{Token, Failure, token};
ghost use Rattle.commands.specs.Arguments.{listed};
ghost use Rattle.version_words.specs.Views.{Goes};
ghost use Rattle.far_server.specs.Keyed.{IsKeyed};
ghost use Rattle.far_server.specs.Many.{one, none, ok, counted, IsCountedEach, IsListedIfShort, IsSetEach};

use crate::bound::{TOO_LARGE, may_grow_to};
use crate::context::Workspace;
use crate::one_key::{Asking, answer_key, stored_text};
use crate::one_reply::push_one_failure;
use crate::refusal::text_of;
use crate::reserve::has_room_for_short;
use crate::usage::FarUsage;
use commands::{Arguments, Change, Lifetime, Where};
use far_blob::Blob;
use far_map::{Calls, MapRefusal};
use far_object::Text;
use hash_table::MOST_PREFETCHED;
use key_commands::KeyCommand;
use resp::{push_count, push_number, push_simple};
use std::alloc::{AllocError, Global};
use std::sync::Wait;
use stored_keys::Keyspace;

/// The reply for a key that counts.
const ONE: &[u8] = b":1\r\n";

/// The reply for a key that does not.
const NONE: &[u8] = b":0\r\n";

/// The reply of a SET that sets.
const OK: &[u8] = b"+OK\r\n";

/// The highest number of keys that can be counted.
const MOST_COUNTED: u64 = (1 << 63) - 1;

/// A SET without options.
const PLAIN: Change = Change {
    to: Where::Always,
    get: false,
    lifetime: Lifetime::Forever,
};

/// Whether a reply is 1 and not 0. None if it is neither.
fn is_one(said: &[u8]) -> Option<bool>
    ensures { MatchOption result ((said.now ≢ one) × (said.now ≢ none)) (λ b. MatchBool b (said.now ≡ one) (said.now ≡ none)) }
{
    if said == ONE {
        Some(true)
    } else if said == NONE {
        Some(false)
    } else {
        None
    }
}

/// One more if a key counts, up to 2^63 - 1.
fn counted(is_one: bool, count: u64) -> u64
    requires { count < 2 ^ 63 }
    ensures value { result ≡ counted is_one count }
    ensures fits { result < 2 ^ 63 }
{
    if is_one && count < MOST_COUNTED {
        count + 1
    } else {
        count
    }
}

/// The stored keys of the next keys, each `step` arguments after the one before. There are as many as a
/// prefetch takes, or fewer if memory is refused.
fn next_keys(
    alloc: Global,
    rest: Arguments<'_>,
    step: usize,
    keyspace: Keyspace,
    workspace: &mut Workspace,
) -> Vec<Text> {
    let mut keys = Vec::new(alloc);
    let mut at: usize = 0;
    for _ in 0..MOST_PREFETCHED {
        let Some(key) = rest.get(at) else {
            break;
        };
        let Ok(key) = stored_text(alloc, keyspace, key, workspace) else {
            break;
        };
        if keys.push(key).is_err() {
            break;
        }
        at = at.saturating_add(step);
    }
    keys
}

/// Begins to load what is about to be read for the next keys, if that is due. The command has `all` arguments
/// for keys, of which `rest` are left, and each key is `step` arguments after the one before.
fn look_ahead<S: Calls<Blob>>(
    alloc: Global,
    me: &mut S,
    all: usize,
    step: usize,
    rest: Arguments<'_>,
    keyspace: Keyspace,
    workspace: &mut Workspace,
)
    ensures { Goes (S.shown me.old).pass (S.shown me.new).pass }
{
    let left = rest.len();
    let is_due = left == all || left % MOST_PREFETCHED.saturating_mul(step).max(1) == 0;
    if is_due && left > step {
        me.prefetch(next_keys(alloc, rest, step, keyspace, workspace).as_slice());
    }
}

/// Carries a command out on `key`, the first of those that are left, and pushes its reply, as `answer_key`
/// does.
fn answer_next<S: Calls<Blob>, R: Wait>(
    rt: &R,
    alloc: Global,
    me: &mut S,
    key: &[u8],
    all: usize,
    step: usize,
    rest: Arguments<'_>,
    asking: Asking<'_>,
    workspace: &mut Workspace,
    reply: &mut Vec<u8>,
) -> Result<(), AllocError>
    ensures done { OnOk result ((r : Token) × (reply.new.items ≡ reply.old.items ++ token r) × IsKeyed S.limits asking.entry.keyspace key.now asking.entry.command asking.entry.now asking.entry.most (S.shown me.old) (S.shown me.new) r) }
    ensures kept { OnErr result (reply.new.items ≡ reply.old.items) }
{
    look_ahead(alloc, me, all, step, rest, asking.keyspace, workspace);
    answer_key(rt, alloc, me, key, asking, workspace, reply)
}

/// Carries a command out on each key, and replies how many replied 1. If one replies an error, that is the
/// reply, and the keys after it are left.
pub(crate) fn count_keys<S: Calls<Blob>, R: Wait>(
    rt: &R,
    alloc: Global,
    me: &mut S,
    keys: Arguments<'_>,
    asking: Asking<'_>,
    workspace: &mut Workspace,
    reply: &mut Vec<u8>,
) -> Result<(), AllocError>
    ensures { OnOk result ((r : Token) × (reply.new.items ≡ reply.old.items ++ token r) × IsCountedEach S.limits asking.entry.keyspace asking.entry.now asking.entry.most asking.entry.command (listed keys.entry) (S.shown me.old) (S.shown me.new) r) }
{
    let before = reply.len();
    let mut count: u64 = 0;
    let mut rest = keys;
    while let Some((key, behind)) = rest.split_first() {
        match answer_next(
            rt,
            alloc,
            me,
            key,
            keys.len(),
            1,
            rest,
            asking,
            workspace,
            reply,
        ) {
            Ok(()) => {}
            Err(refused) => return Err(refused),
        }
        match is_one(&reply[before..]) {
            Some(is_one) => count = counted(is_one, count),
            None => return Ok(()),
        }
        reply.truncate(before);
        rest = behind;
    }
    push_number(reply, count as i64)
}

/// Puts an error in place of the replies to some keys.
fn take_back(before: usize, text: &[u8], reply: &mut Vec<u8>) -> Result<(), AllocError>
    ensures { OnOk result (reply.new.items ≡ take before reply.old.items ++ flat_map token (Failure text.now ∷ [])) }
{
    reply.truncate(before);
    push_one_failure(reply, text)
}

/// GET of each key. The reply is one of these:
/// - an array of their replies, of which some may be errors;
/// - the error that the array would be too large, if `limit` has no room for one more value at some key;
/// - the error of refused memory, if the system refuses it at some key for one more short reply.
pub(crate) fn get_keys<S: Calls<Blob>, R: Wait>(
    rt: &R,
    alloc: Global,
    me: &mut S,
    keys: Arguments<'_>,
    asking: Asking<'_>,
    limit: usize,
    workspace: &mut Workspace,
    reply: &mut Vec<u8>,
) -> Result<(), AllocError>
    ensures { OnOk result ((rs : List Token) × (reply.new.items ≡ reply.old.items ++ flat_map token rs) × IsListedIfShort S.limits asking.entry.keyspace asking.entry.now asking.entry.most asking.entry.command limit (listed keys.entry) (S.shown me.old) (S.shown me.new) rs) }
{
    let before = reply.len();
    match push_count(reply, keys.len()) {
        Ok(()) => {}
        Err(refused) => return Err(refused),
    }
    let mut rest = keys;
    while let Some((key, behind)) = rest.split_first() {
        let used = reply.len() - before;
        if !may_grow_to(limit, used, asking.most) {
            return take_back(before, TOO_LARGE, reply);
        }
        if !has_room_for_short(workspace.beside, reply) {
            return take_back(before, text_of(MapRefusal::Memory), reply);
        }
        match answer_next(
            rt,
            alloc,
            me,
            key,
            keys.len(),
            1,
            rest,
            asking,
            workspace,
            reply,
        ) {
            Ok(()) => {}
            Err(refused) => return Err(refused),
        }
        rest = behind;
    }
    Ok(())
}

/// Whether a reply is OK.
fn is_ok(said: &[u8]) -> bool
    ensures { MatchBool result (said.now ≡ ok) (said.now ≢ ok) }
{
    said == OK
}

/// The first key, its value, and the arguments after them. None if there are fewer than two.
fn first_pair(pairs: Arguments<'_>) -> Option<(&[u8], &[u8], Arguments<'_>)>
    ensures { MatchOption result (length (listed pairs.entry) < 2) (λ p. listed pairs.entry ≡ p.0.now ∷ p.1.now ∷ listed p.2) }
{
    let (key, behind) = pairs.split_first()?;
    let (value, behind) = behind.split_first()?;
    Some((key, value, behind))
}

/// SET of each pair. If one replies an error, that is the reply, and the pairs after it are left. Otherwise
/// the reply is OK.
pub(crate) fn set_pairs<S: Calls<Blob>, R: Wait>(
    rt: &R,
    alloc: Global,
    me: &mut S,
    pairs: Arguments<'_>,
    keyspace: Keyspace,
    now: u64,
    most: u32,
    usage: &FarUsage,
    workspace: &mut Workspace,
    reply: &mut Vec<u8>,
) -> Result<(), AllocError>
    ensures { OnOk result ((r : Token) × (reply.new.items ≡ reply.old.items ++ token r) × IsSetEach S.limits keyspace now most (listed pairs.entry) (S.shown me.old) (S.shown me.new) r) }
{
    let before = reply.len();
    let mut rest = pairs;
    while let Some((key, value, behind)) = first_pair(rest) {
        let command = KeyCommand::Set {
            value,
            change: PLAIN,
        };
        let asking = Asking {
            command,
            keyspace,
            now,
            most,
            usage,
        };
        match answer_next(
            rt,
            alloc,
            me,
            key,
            pairs.len(),
            2,
            rest,
            asking,
            workspace,
            reply,
        ) {
            Ok(()) => {}
            Err(refused) => return Err(refused),
        }
        if is_ok(&reply[before..]) {
            reply.truncate(before);
        } else {
            return Ok(());
        }
        rest = behind;
    }
    push_simple(reply, b"OK")
}
