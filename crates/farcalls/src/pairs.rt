//! PAIRS: the pairs of a bucket.
ghost use Rattle.std.specs.Prelude.{◌≡◌, ◌<◌, ◌+◌, ◌-◌, ◌*◌, ◌^◌, ◌++◌, ◌∷◌, [], false, ℕ, List, pos, length, IfOk, IfErr, MatchOption, OnOk, OnErr};
ghost use Rattle.std.specs.List.{flat_map};
ghost use Rattle.resp.specs.Replies.{Count, Number, token};
ghost use Rattle.far_blob.specs.Encodings.{enc_blob};
ghost use Rattle.far_map.specs.Visits.{AreOfBucket};
ghost use Rattle.far_map.specs.declared.refusal.MapRefusal.TheVariants as refusal;
ghost use Rattle.farcalls.specs.declared.refusal.Unanswered.TheVariants as unanswered;
ghost use Rattle.farcalls.specs.Sessions.{Stays};
ghost use Rattle.farcalls.specs.Tokens.{pair_tokens};
ghost use Rattle.farcalls.specs.Answers.{AreEmpty, IsFilled, RepliesPairs, IsRefused, IsHandled};

use crate::context::SessionContext;
use crate::refusal::Unanswered;
use far_blob::Blob;
use far_map::{Calls, MapRefusal, Text};
use resp::{push_count, push_number, push_string};
use std::alloc::AllocError;
use std::sync::Wait;

/// The pairs of a bucket that has some, and the number of the next bucket.
#[derive(Drop)]
struct Filled {
    next: u32,
    pairs: Vec<(Text, Blob)>,
}

/// The pairs of a bucket that were handed over so far.
#[derive(Drop)]
struct Collected {
    pairs: Vec<(Text, Blob)>,
    /// Whether there was no memory for one of them.
    is_short: bool,
}

impl Collected {
    /// One pair more.
    fn take(&mut self, key: Text, value: Blob)
        ensures { self.new.is_short ≡ false → (self.old.is_short ≡ false) × (self.new.pairs.items ≡ self.old.pairs.items ++ (key, value) ∷ []) }
    {
        if self.pairs.push((key, value)).is_err() {
            self.is_short = true;
        }
    }
}

/// The pairs of a bucket.
fn read_pairs<S: Calls<Blob>, R: Wait>(
    context: &SessionContext<'_, R>,
    me: &mut S,
    bucket: u32,
) -> Result<Vec<(Text, Blob)>, MapRefusal>
    requires { bucket < S.limits.buckets }
    ensures pairs { IfOk result (λ pairs. AreOfBucket enc_blob S.limits bucket (S.shown me.new).pass pairs.items) }
    ensures stays { Stays (S.shown me.old) (S.shown me.new) }
{
    let mut collected = Collected {
        pairs: Vec::new(context.alloc),
        is_short: false,
    };
    let mut visit = |key: Text, value: Blob| collected.take(key, value);
    match me.for_each_in(context.rt, bucket, &mut visit) {
        Ok(()) => {}
        Err(why) => return Err(why),
    }
    let Collected { pairs, is_short } = collected;
    if is_short {
        return Err(MapRefusal::Memory);
    }
    Ok(pairs)
}

/// The pairs of a bucket that may well be empty, which its word shows.
fn pairs_in<S: Calls<Blob>, R: Wait>(
    context: &SessionContext<'_, R>,
    me: &mut S,
    bucket: u32,
) -> Result<Vec<(Text, Blob)>, MapRefusal>
    requires { bucket < S.limits.buckets }
    ensures pairs { IfOk result (λ pairs. AreOfBucket enc_blob S.limits bucket (S.shown me.new).pass pairs.items) }
    ensures stays { Stays (S.shown me.old) (S.shown me.new) }
{
    if me.is_empty_at(bucket) {
        return Ok(Vec::new(context.alloc));
    }
    read_pairs(context, me, bucket)
}

/// The first bucket from `from` on that has pairs.
fn first_filled<S: Calls<Blob>, R: Wait>(
    context: &SessionContext<'_, R>,
    me: &mut S,
    from: u32,
) -> Result<Option<Filled>, MapRefusal>
    ensures found { IfOk result (λ found. MatchOption found (AreEmpty S.limits from (S.limits.buckets - from) (S.shown me.old) (S.shown me.new)) (λ filled. (bucket : ℕ) × (filled.next ≡ bucket + 1) × IsFilled S.limits from bucket filled.pairs.items (S.shown me.old) (S.shown me.new))) }
    ensures stays { Stays (S.shown me.old) (S.shown me.new) }
{
    for bucket in from..me.buckets() {
        let pairs = match pairs_in(context, me, bucket) {
            Ok(pairs) => pairs,
            Err(why) => return Err(why),
        };
        let found = pairs.as_slice();
        if !found.is_empty() {
            return Ok(Some(Filled {
                next: bucket + 1,
                pairs,
            }));
        }
    }
    Ok(None)
}

/// Pushes a key and its value.
fn push_pair(out: &mut Vec<u8>, pair: &(Text, Blob)) -> Result<(), AllocError>
    ensures pushed { OnOk result (out.new.items ≡ out.old.items ++ flat_map token (pair_tokens pair.now)) }
    ensures more { (more : List ℕ) × (out.new.items ≡ out.old.items ++ more) }
{
    let (key, value) = pair;
    push_string(out, key.as_bytes())?;
    push_string(out, value.as_bytes())
}

/// Pushes keys and values. After an error `out` may have some of them.
fn push_pairs(out: &mut Vec<u8>, pairs: &[(Text, Blob)]) -> Result<(), AllocError>
    ensures pushed { OnOk result (out.new.items ≡ out.old.items ++ flat_map token (flat_map pair_tokens pairs.now)) }
    ensures more { (more : List ℕ) × (out.new.items ≡ out.old.items ++ more) }
{
    for pair in pairs {
        match push_pair(out, pair) {
            Ok(()) => {}
            Err(refused) => return Err(refused),
        }
    }
    Ok(())
}

/// Pushes an array of the number of the next bucket, and of keys and values. After an error `out` may have a part
/// of it.
fn push_page(out: &mut Vec<u8>, next: u32, pairs: &[(Text, Blob)]) -> Result<(), AllocError>
    ensures pushed { OnOk result (out.new.items ≡ out.old.items ++ flat_map token (Count (2 * length pairs.now + 1) ∷ Number (pos next) ∷ flat_map pair_tokens pairs.now)) }
    ensures more { (more : List ℕ) × (out.new.items ≡ out.old.items ++ more) }
{
    match push_head(out, pairs.len(), next) {
        Ok(()) => push_pairs(out, pairs),
        Err(refused) => Err(refused),
    }
}

/// Pushes the front of an array of a number, and of this many keys and values.
fn push_head(out: &mut Vec<u8>, pairs: usize, next: u32) -> Result<(), AllocError>
    requires few { 2 * pairs + 1 < 2 ^ 64 }
    ensures pushed { OnOk result (out.new.items ≡ out.old.items ++ flat_map token (Count (2 * pairs + 1) ∷ Number (pos next) ∷ [])) }
    ensures more { (more : List ℕ) × (out.new.items ≡ out.old.items ++ more) }
{
    push_count(out, 2 * pairs + 1)?;
    push_number(out, i64::from(next))
}

/// Pushes the reply for what was found. If there is no memory for it, `out` is as before.
fn reply_pairs(out: &mut Vec<u8>, next: u32, pairs: &[(Text, Blob)]) -> Result<(), Unanswered>
    ensures pushed { OnOk result (out.new.items ≡ out.old.items ++ flat_map token (Count (2 * length pairs.now + 1) ∷ Number (pos next) ∷ flat_map pair_tokens pairs.now)) }
    ensures kept { OnErr result (out.new.items ≡ out.old.items) }
    ensures fault { IfErr result (λ why. why ≡ unanswered.Refused refusal.Memory) }
{
    let before = out.len();
    match push_page(out, next, pairs) {
        Ok(()) => Ok(()),
        Err(_) => {
            out.truncate(before);
            Err(Unanswered::Refused(MapRefusal::Memory))
        }
    }
}

/// PAIRS: the first bucket from `from` on that has pairs. If there is none, the array has only the number of
/// buckets.
pub(crate) fn answer_pairs<S: Calls<Blob>, R: Wait>(
    context: &SessionContext<'_, R>,
    me: &mut S,
    from: u32,
    out: &mut Vec<u8>,
) -> Result<(), Unanswered>
    ensures { IsHandled (RepliesPairs S.limits from) IsRefused (S.shown me.old) (S.shown me.new) out.old.items out.new.items result }
{
    let found = match first_filled(context, me, from) {
        Ok(found) => found,
        Err(why) => return Err(Unanswered::Refused(why)),
    };
    match found {
        Some(filled) => reply_pairs(out, filled.next, filled.pairs.as_slice()),
        None => reply_pairs(out, me.buckets(), &[]),
    }
}
