//! Commands on all keys of a database, or of all databases, which visit one bucket after another: SCAN, FLUSHDB and
//! FLUSHALL.
ghost use Rattle.std.specs.Prelude.{◌≡◌, ◌<◌, ◌++◌, ◌∷◌, [], false, ℕ, List, length, IfOk, OnErr, OnOk};
ghost use Rattle.std.specs.List.{flat_map};
ghost use Rattle.resp.specs.Replies.{Token, Count, String, token};
ghost use Rattle.server_commands.specs.Replying.{AreReplies, Replies};
ghost use Rattle.version_words.specs.Views.{Goes};
ghost use Rattle.far_server.specs.Flushes.{is_of, IsFinding, IsFlushing, IsFlushOfAll, IsFlush};
ghost use Rattle.far_server.specs.Lists.{told_key, told_keys};

use crate::bound::{FRAMING, MOST_PAGE};
use crate::context::Workspace;
use crate::deadlines::is_over;
use crate::one_reply::{push_one_failure, push_one_simple, push_one_string};
use crate::refusal::{text_of, text_with};
use crate::reserve::has_room_for_short;
use crate::usage::FarUsage;
use commands::{Scan, matches};
use far_blob::Blob;
use far_map::{Calls, MapRefusal};
use far_object::Text;
use itoa::Buffer;
use resp::{push_count, push_string};
use std::alloc::{AllocError, Global};
use std::sync::Wait;
use stored_keys::{client_key, database_of};

/// How many keys SCAN looks at before it ends, at most, whatever its COUNT, and how many of other databases it
/// passes. Other clients of its worker wait meanwhile.
const MOST_KEYS: u64 = 1_000;

/// How many buckets SCAN visits at most. They are many because empty ones take little time.
const MOST_BUCKETS: u32 = 65_536;

/// Whether a stored key is of this database. None stands for any database.
pub(crate) fn is_of(database: Option<u8>, stored: &[u8]) -> bool
    ensures { result ≡ is_of database stored.now }
{
    match database {
        Some(database) => match database_of(stored) {
            Some(other) => other == database,
            None => false,
        },
        None => true,
    }
}

/// The keys of a bucket that are of this database, or of any, without those whose value is expired at the time
/// `now`. At 0 none is expired. An empty bucket is not read: its word shows that it is empty.
pub(crate) fn keys_in<S: Calls<Blob>, R: Wait>(
    rt: &R,
    alloc: Global,
    me: &mut S,
    bucket: u32,
    database: Option<u8>,
    now: u64,
) -> Result<Vec<Text>, MapRefusal>
    requires { bucket < S.limits.buckets }
    ensures { Goes (S.shown me.old).pass (S.shown me.new).pass }
{
    let mut keys = Vec::new(alloc);
    if me.is_empty_at(bucket) {
        return Ok(keys);
    }
    let mut is_short = false;
    let mut visit = |key: Text, value: Blob| {
        if is_of(database, key.as_bytes()) && !is_over(&value, now) && keys.push(key).is_err() {
            is_short = true;
        }
    };
    match me.for_each_in(rt, bucket, &mut visit) {
        Ok(()) => {}
        Err(why) => return Err(why),
    }
    if is_short {
        return Err(MapRefusal::Memory);
    }
    Ok(keys)
}

/// What a SCAN has found so far: the keys, how many bytes they have in the reply, how many keys of the database it
/// looked at, and how many keys of other databases it passed.
#[derive(Drop)]
struct Found {
    keys: Vec<Text>,
    bytes: usize,
    looked: u64,
    passed: u64,
}

impl Found {
    fn new(alloc: Global) -> Found {
        Found {
            keys: Vec::new(alloc),
            bytes: 0,
            looked: 0,
            passed: 0,
        }
    }

    /// Whether these keys and the others are too much for one page. The keys of the first bucket that has
    /// some never are.
    fn is_over_with(&self, other: &Found) -> bool {
        !self.keys.is_empty() && self.bytes.saturating_add(other.bytes) > MOST_PAGE
    }

    /// Adds the keys of a bucket.
    fn add(&mut self, other: Found) -> Result<(), AllocError> {
        let Found {
            keys,
            bytes,
            looked,
            passed,
        } = other;
        for key in keys {
            self.keys.push(key)?;
        }
        self.bytes = self.bytes.saturating_add(bytes);
        self.looked = self.looked.saturating_add(looked);
        self.passed = self.passed.saturating_add(passed);
        Ok(())
    }
}

/// Those of a bucket's keys that the SCAN of a database asks for.
fn asked_of(
    alloc: Global,
    keys: Vec<Text>,
    database: u8,
    scan: Scan<'_>,
) -> Result<Found, AllocError> {
    let mut found = Found::new(alloc);
    for key in keys {
        if !is_of(Some(database), key.as_bytes()) {
            found.passed = found.passed.saturating_add(1);
            continue;
        }
        found.looked = found.looked.saturating_add(1);
        let bytes = client_key(key.as_bytes());
        let is_wanted = match scan.pattern {
            Some(pattern) => matches(pattern, bytes),
            None => true,
        };
        if is_wanted && scan.strings {
            found.bytes = found
                .bytes
                .saturating_add(bytes.len().saturating_add(FRAMING));
            found.keys.push(key)?;
        }
    }
    Ok(found)
}

/// What the SCAN asks for in a bucket, of the keys of a database.
fn find_in<S: Calls<Blob>, R: Wait>(
    rt: &R,
    alloc: Global,
    me: &mut S,
    bucket: u32,
    database: u8,
    scan: Scan<'_>,
    now: u64,
) -> Result<Found, MapRefusal>
    requires { bucket < S.limits.buckets }
    ensures { Goes (S.shown me.old).pass (S.shown me.new).pass }
{
    match keys_in(rt, alloc, me, bucket, None, now) {
        Ok(keys) => match asked_of(alloc, keys, database, scan) {
            Ok(found) => Ok(found),
            Err(_) => Err(MapRefusal::Memory),
        },
        Err(why) => Err(why),
    }
}

/// The keys of a database from the cursor's bucket on, as many as a page has, and the bucket at which the next SCAN goes
/// on. That is 0 at the end.
fn find<S: Calls<Blob>, R: Wait>(
    rt: &R,
    alloc: Global,
    me: &mut S,
    database: u8,
    scan: Scan<'_>,
    now: u64,
) -> Result<(u32, Found), MapRefusal>
    ensures { Goes (S.shown me.old).pass (S.shown me.new).pass }
{
    let buckets = me.buckets();
    let mut found = Found::new(alloc);
    let first = scan.cursor.min(u64::from(buckets)) as u32;
    let count = scan.count.min(MOST_KEYS);
    for bucket in first..buckets {
        let is_full = found.looked >= count || found.passed >= MOST_KEYS;
        if is_full || bucket - first >= MOST_BUCKETS {
            return Ok((bucket, found));
        }
        let more = match find_in(rt, alloc, me, bucket, database, scan, now) {
            Ok(more) => more,
            Err(why) => return Err(why),
        };
        if found.is_over_with(&more) {
            return Ok((bucket, found));
        }
        if found.add(more).is_err() {
            return Err(MapRefusal::Memory);
        }
    }
    Ok((0, found))
}

/// Pushes the client's key of a key of the map, as a string. If memory is refused, `reply` is as before.
pub(crate) fn push_key(reply: &mut Vec<u8>, stored: &Text) -> Result<(), AllocError>
    ensures told { OnOk result (reply.new.items ≡ reply.old.items ++ flat_map token (told_key stored.now ∷ [])) }
    ensures kept { OnErr result (reply.new.items ≡ reply.old.items) }
{
    push_one_string(reply, client_key(stored.as_bytes()))
}

/// The same for each of these keys.
fn push_keys(reply: &mut Vec<u8>, keys: &[Text]) -> Result<(), AllocError>
    ensures { OnOk result (reply.new.items ≡ reply.old.items ++ flat_map token (told_keys keys.now)) }
{
    for key in keys {
        match push_key(reply, key) {
            Ok(()) => {}
            Err(refused) => return Err(refused),
        }
    }
    Ok(())
}

/// Pushes the head of a reply to SCAN, which is an array of a cursor and an array of keys.
fn push_head(reply: &mut Vec<u8>, next: &[u8], keys: usize) -> Result<(), AllocError>
    ensures { OnOk result (reply.new.items ≡ reply.old.items ++ flat_map token (Count 2 ∷ String next.now ∷ Count keys ∷ [])) }
{
    push_count(reply, 2)?;
    push_string(reply, next)?;
    push_count(reply, keys)
}

/// Pushes the reply to SCAN: the bucket at which the next one goes on, and an array of the clients' keys.
fn push_found(reply: &mut Vec<u8>, next: u32, found: &Found) -> Result<(), AllocError>
    ensures { OnOk result ((cursor : List ℕ) × (reply.new.items ≡ reply.old.items ++ flat_map token (Count 2 ∷ String cursor ∷ Count (length found.now.keys.items) ∷ told_keys found.now.keys.items))) }
{
    let mut digits = Buffer::new();
    match push_head(reply, digits.format(next).as_bytes(), found.keys.len()) {
        Ok(()) => {}
        Err(refused) => return Err(refused),
    }
    match push_keys(reply, found.keys.as_slice()) {
        Ok(()) => Ok(()),
        Err(refused) => Err(refused),
    }
}

/// Answers SCAN of a database. The cursor is the number of a bucket, so a key that stays is found. Before any of the page
/// is written there is room for all of it, and for `beside` bytes after it. Otherwise the reply is the error
/// of refused memory.
pub(crate) fn answer_scan<S: Calls<Blob>, R: Wait>(
    rt: &R,
    alloc: Global,
    me: &mut S,
    database: u8,
    scan: Scan<'_>,
    now: u64,
    beside: usize,
    usage: &FarUsage,
    reply: &mut Vec<u8>,
) -> Result<(), AllocError>
    ensures goes { Goes (S.shown me.old).pass (S.shown me.new).pass }
    ensures said { OnOk result (Replies 1 reply.old.items reply.new.items) }
{
    match find(rt, alloc, me, database, scan, now) {
        Ok((next, found)) => {
            if !has_room_for_short(found.bytes.saturating_add(beside), reply) {
                return push_one_failure(reply, text_of(MapRefusal::Memory));
            }
            push_found(reply, next, &found)
        }
        Err(why) => push_one_failure(reply, text_with(why, usage.last_reason())),
    }
}

/// All keys of a bucket, of all databases, expired or not.
pub(crate) fn all_keys_in<S: Calls<Blob>, R: Wait>(
    rt: &R,
    alloc: Global,
    me: &mut S,
    bucket: u32,
) -> Result<Vec<Text>, MapRefusal>
    requires { bucket < S.limits.buckets }
    ensures { IsFinding S.limits bucket (S.shown me.old) (S.shown me.new) result }
{
    let mut keys = Vec::new(alloc);
    let mut is_short = false;
    let mut visit = |key: Text, _: Blob|
        ensures { is_short.exit ≡ false → (is_short.entry ≡ false) × (keys.exit.items ≡ keys.entry.items ++ key ∷ []) }
    {
        if keys.push(key).is_err() {
            is_short = true;
        }
    };
    match me.for_each_in(rt, bucket, &mut visit) {
        Ok(()) => {}
        Err(why) => return Err(why),
    }
    if is_short {
        return Err(MapRefusal::Memory);
    }
    Ok(keys)
}

/// Removes all keys of this database, or of any, that the bucket had when it was visited.
pub(crate) fn empty_bucket<S: Calls<Blob>, R: Wait>(
    rt: &R,
    alloc: Global,
    me: &mut S,
    bucket: u32,
    database: Option<u8>,
    workspace: &mut Workspace,
) -> Result<(), MapRefusal>
    requires { bucket < S.limits.buckets }
    ensures { IsFlushing S.limits database bucket (S.shown me.old) (S.shown me.new) result }
{
    let keys = match all_keys_in(rt, alloc, me, bucket) {
        Ok(keys) => keys,
        Err(why) => return Err(why),
    };
    for key in &keys {
        if !is_of(database, key.as_bytes()) {
            continue;
        }
        match me.remove(rt, key) {
            Ok(value) => workspace.count_removed(key, value.is_some()),
            Err(why) => return Err(why),
        }
    }
    Ok(())
}

/// The same for a bucket that may well be empty, which its word shows.
fn empty_filled<S: Calls<Blob>, R: Wait>(
    rt: &R,
    alloc: Global,
    me: &mut S,
    bucket: u32,
    database: Option<u8>,
    workspace: &mut Workspace,
) -> Result<(), MapRefusal>
    requires { bucket < S.limits.buckets }
    ensures { IsFlushing S.limits database bucket (S.shown me.old) (S.shown me.new) result }
{
    if me.is_empty_at(bucket) {
        return Ok(());
    }
    empty_bucket(rt, alloc, me, bucket, database, workspace)
}

fn empty_all<S: Calls<Blob>, R: Wait>(
    rt: &R,
    alloc: Global,
    me: &mut S,
    database: Option<u8>,
    workspace: &mut Workspace,
) -> Result<(), MapRefusal>
    ensures { IsFlushOfAll S.limits database (S.shown me.old) (S.shown me.new) result }
{
    for bucket in 0..me.buckets() {
        match empty_filled(rt, alloc, me, bucket, database, workspace) {
            Ok(()) => {}
            Err(why) => return Err(why),
        }
    }
    Ok(())
}

/// Answers FLUSHDB of a database, or FLUSHALL, bucket by bucket, so a key that is set meanwhile may stay. If a
/// bucket can't be read, the reply is an error, and a renewal is asked for. The renewal leaves that bucket out, so
/// it is gone for the next one.
pub(crate) fn answer_flush<S: Calls<Blob>, R: Wait>(
    rt: &R,
    alloc: Global,
    me: &mut S,
    database: Option<u8>,
    usage: &FarUsage,
    workspace: &mut Workspace,
    reply: &mut Vec<u8>,
) -> Result<(), AllocError>
    ensures { OnOk result ((rs : List Token) × (reply.new.items ≡ reply.old.items ++ flat_map token rs) × AreReplies 1 rs × IsFlush S.limits database (S.shown me.old) (S.shown me.new) rs) }
{
    match empty_all(rt, alloc, me, database, workspace) {
        Ok(()) => push_one_simple(reply, b"OK"),
        Err(why) => {
            workspace.wants_renewal |= matches!(why, MapRefusal::Device | MapRefusal::Damaged);
            push_one_failure(reply, text_with(why, usage.last_reason()))
        }
    }
}
