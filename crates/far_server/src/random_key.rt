//! RANDOMKEY: draws a key of a database.
//!
//! Buckets are drawn until one has a key of it, and then one of its keys is drawn. If 1,000 draws meet no key, the
//! next bucket in order that has one is taken, from a drawn bucket on.
//!
//! So if most buckets have one key or none, each key is drawn about as often as any other. If a bucket has
//! several, each of them is drawn less often. Nothing is proved about how often.
ghost use Rattle.std.specs.Prelude.{◌≡◌, ◌<◌, ◌≤◌, ◌++◌, ℕ, List, OnOk, OnErr};
ghost use Rattle.std.specs.List.{flat_map};
ghost use Rattle.resp.specs.Replies.{Token, token};
ghost use Rattle.server_commands.specs.Replying.{Replies};
ghost use Rattle.version_words.specs.Views.{Goes};
ghost use Rattle.far_server.specs.Lists.{IsToldOne};

use crate::all_keys::{keys_in, push_key};
use crate::context::{ServerContext, Workspace};
use crate::one_reply::{push_one_failure, push_one_nothing};
use crate::refusal::text_with;
use far_blob::Blob;
use far_map::{Calls, MapRefusal};
use far_object::Text;
use rand::rngs::SmallRng;
use rand::seq::IndexedRandom;
use rand::{RngExt, SeedableRng};
use std::alloc::{AllocError, Global};
use std::sync::Wait;

/// How many buckets are drawn at most until one has a key.
const MOST_DRAWS: u32 = 1_000;

/// The random numbers of a worker, from the seed that all workers of a server share.
fn draws_of(seed: u64, worker: u32) -> SmallRng {
    SmallRng::seed_from_u64(seed.wrapping_add(u64::from(worker)))
}

/// A random number below `end`, which is not 0.
fn draw_below(draws: &mut SmallRng, end: u32) -> u32
    requires { 0 < end }
    ensures { result < end }
{
    draws.random_range(0..end)
}

/// The keys of the first bucket that has one, from `from` to `to` - 1. No keys if none has. An empty bucket
/// costs one look at its word, because most are empty if many are visited here.
fn keys_between<S: Calls<Blob>, R: Wait>(
    rt: &R,
    alloc: Global,
    me: &mut S,
    from: u32,
    to: u32,
    database: u8,
    now: u64,
) -> Result<Vec<Text>, MapRefusal>
    requires { to ≤ S.limits.buckets }
    ensures { Goes (S.shown me.old).pass (S.shown me.new).pass }
{
    for bucket in from..to {
        if me.is_empty_at(bucket) {
            continue;
        }
        match keys_in(rt, alloc, me, bucket, Some(database), now) {
            Ok(keys) => {
                if !keys.is_empty() {
                    return Ok(keys);
                }
            }
            Err(why) => return Err(why),
        }
    }
    Ok(Vec::new(alloc))
}

/// The keys of the first bucket that has one, from `first` on, and then from 0 on.
fn keys_from<S: Calls<Blob>, R: Wait>(
    rt: &R,
    alloc: Global,
    me: &mut S,
    first: u32,
    database: u8,
    now: u64,
) -> Result<Vec<Text>, MapRefusal>
    ensures { Goes (S.shown me.old).pass (S.shown me.new).pass }
{
    let buckets = me.buckets();
    match keys_between(rt, alloc, me, first, buckets, database, now) {
        Ok(keys) => {
            if keys.is_empty() {
                keys_between(rt, alloc, me, 0, first.min(buckets), database, now)
            } else {
                Ok(keys)
            }
        }
        Err(why) => Err(why),
    }
}

/// The keys of a drawn bucket that has one. If the draws met none, those of the first such bucket from a
/// drawn one on.
fn drawn_keys<S: Calls<Blob>, R: Wait>(
    rt: &R,
    alloc: Global,
    me: &mut S,
    draws: &mut SmallRng,
    database: u8,
    now: u64,
) -> Result<Vec<Text>, MapRefusal>
    ensures { Goes (S.shown me.old).pass (S.shown me.new).pass }
{
    let buckets = me.buckets();
    if buckets == 0 {
        return Ok(Vec::new(alloc));
    }
    for _ in 0..MOST_DRAWS {
        let bucket = draw_below(draws, buckets);
        match keys_in(rt, alloc, me, bucket, Some(database), now) {
            Ok(keys) => {
                if !keys.is_empty() {
                    return Ok(keys);
                }
            }
            Err(why) => return Err(why),
        }
    }
    let first = draw_below(draws, buckets);
    keys_from(rt, alloc, me, first, database, now)
}

/// Pushes the client's key of one of the keys, which is drawn, or the null reply if there are no keys.
fn push_drawn(draws: &mut SmallRng, keys: &[Text], reply: &mut Vec<u8>) -> Result<(), AllocError>
    ensures told { OnOk result ((rs : List Token) × (reply.new.items ≡ reply.old.items ++ flat_map token rs) × IsToldOne keys.now rs) }
    ensures said { OnOk result (Replies 1 reply.old.items reply.new.items) }
    ensures kept { OnErr result (reply.new.items ≡ reply.old.items) }
{
    match keys.choose(draws) {
        Some(key) => push_key(reply, key),
        None => push_one_nothing(reply),
    }
}

/// Answers RANDOMKEY of a database. If memory is refused for the reply, `reply` is as before.
pub(crate) fn answer_random_key<S: Calls<Blob>, C, R: Wait>(
    context: &ServerContext<'_, C, R>,
    me: &mut S,
    workspace: &mut Workspace,
    database: u8,
    now: u64,
    reply: &mut Vec<u8>,
) -> Result<(), AllocError>
    ensures goes { Goes (S.shown me.old).pass (S.shown me.new).pass }
    ensures said { OnOk result (Replies 1 reply.old.items reply.new.items) }
    ensures kept { OnErr result (reply.new.items ≡ reply.old.items) }
{
    // Without this each bucket of the map would be read for a database that has no key.
    if context.shared_statistics.is_empty(database) {
        return push_one_nothing(reply);
    }
    let mut draws = match workspace.draws.take() {
        Some(draws) => draws,
        None => draws_of(context.settings.seed, context.worker),
    };
    let found = drawn_keys(context.rt, context.alloc, me, &mut draws, database, now);
    let said = match found {
        Ok(keys) => push_drawn(&mut draws, keys.as_slice(), reply),
        Err(why) => push_one_failure(reply, text_with(why, context.usage.last_reason())),
    };
    workspace.draws = Some(draws);
    said
}
