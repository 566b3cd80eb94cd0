//! MGET: the values of several keys.
ghost use Rattle.std.specs.Prelude.{◌≡◌, ◌≤◌, ◌++◌, ◌∷◌, [], ℕ, List, Option, length, map, IfOk, IfErr, OnOk, OnErr};
ghost use Rattle.std.specs.List.{flat_map};
ghost use Rattle.resp.specs.Replies.{Count, token};
ghost use Rattle.commands.specs.Arguments.{listed};
ghost use Rattle.table_core.specs.Lent.{lent_value};
ghost use Rattle.far_blob.specs.Encodings.{enc_blob};
ghost use Rattle.far_map.specs.Many.{AreGot};
ghost use Rattle.farcalls.specs.Tokens.{value_token};
ghost use Rattle.farcalls.specs.Answers.{IsOfKeys, RepliesEach, AreCutOff, IsHandled};

use crate::context::SessionContext;
use crate::one_key::key_of;
use crate::refusal::Unanswered;
use crate::replies::push_value;
use commands::Arguments;
use far_blob::Blob;
use far_map::{Calls, MapRefusal, Text};
use resp::push_count;
use std::alloc::Global;
use std::sync::Wait;

/// The most bytes of the values in a reply. With more the request is refused.
const MOST_REPLY: usize = 64 << 20;

/// How many keys are got at once, besides the first.
const MORE_KEYS: usize = 63;

/// Pushes the text of a key.
fn push_key(alloc: Global, texts: &mut Vec<Text>, key: &[u8]) -> Result<(), Unanswered>
    ensures pushed { OnOk result (texts.new.items ≡ texts.old.items ++ key.now ∷ []) }
    ensures fault { IfErr result (λ why. IsOfKeys why) }
{
    let text = match key_of(alloc, key) {
        Ok(text) => text,
        Err(why) => return Err(why),
    };
    match texts.push(text) {
        Ok(()) => Ok(()),
        Err(_) => Err(Unanswered::Refused(MapRefusal::Memory)),
    }
}

/// The texts of `first` and of up to 63 keys after it, and the keys that are left.
fn next_keys<'a>(
    alloc: Global,
    first: &[u8],
    behind: Arguments<'a>,
) -> Result<(Vec<Text>, Arguments<'a>), Unanswered>
    ensures keys { IfOk result (λ p. first.now ∷ listed behind.entry ≡ p.0.items ++ listed p.1) }
    ensures fewer { IfOk result (λ p. length (listed p.1) ≤ length (listed behind.entry)) }
    ensures fault { IfErr result (λ why. IsOfKeys why) }
{
    let mut texts = Vec::new(alloc);
    match push_key(alloc, &mut texts, first) {
        Ok(()) => {}
        Err(why) => return Err(why),
    }
    let mut rest = behind;
    for _ in 0..MORE_KEYS {
        let Some((key, others)) = rest.split_first() else {
            break;
        };
        match push_key(alloc, &mut texts, key) {
            Ok(()) => {}
            Err(why) => return Err(why),
        }
        rest = others;
    }
    Ok((texts, rest))
}

/// The values of `first` and of up to 63 keys after it, and the keys that are left.
fn next_values<'a, S: Calls<Blob>, R: Wait>(
    context: &SessionContext<'_, R>,
    me: &mut S,
    first: &[u8],
    behind: Arguments<'a>,
) -> Result<(Vec<Option<Blob>>, Arguments<'a>), Unanswered>
    ensures got { IfOk result (λ p. (ks : List (List ℕ)) × (first.now ∷ listed behind.entry ≡ ks ++ listed p.1) × AreGot enc_blob S.limits ks p.0.items (S.shown me.old) (S.shown me.new)) }
    ensures fewer { IfOk result (λ p. length (listed p.1) ≤ length (listed behind.entry)) }
    ensures fault { IfErr result (λ why. AreCutOff S.limits (first.now ∷ listed behind.entry) why (S.shown me.old) (S.shown me.new)) }
{
    let (texts, rest) = match next_keys(context.alloc, first, behind) {
        Ok(next) => next,
        Err(why) => return Err(why),
    };
    match me.get_many(context.rt, texts.as_slice()) {
        Ok(values) => Ok((values, rest)),
        Err(why) => Err(Unanswered::Refused(why)),
    }
}

/// Pushes a value, or the null reply, if `out` has at most `most` bytes then, except for framing.
fn push_one(out: &mut Vec<u8>, most: usize, value: Option<&Blob>) -> Result<(), Unanswered>
    ensures pushed { OnOk result (out.new.items ≡ out.old.items ++ flat_map token (value_token (lent_value value.entry) ∷ [])) }
    ensures kept { OnErr result (out.new.items ≡ out.old.items) }
    ensures fault { IfErr result (λ why. IsOfKeys why) }
{
    let more = match value {
        Some(value) => value.as_bytes().len(),
        None => 0,
    };
    if out.len().saturating_add(more) > most {
        return Err(Unanswered::ReplyTooLong);
    }
    match push_value(out, value) {
        Ok(()) => Ok(()),
        Err(_) => Err(Unanswered::Refused(MapRefusal::Memory)),
    }
}

/// Pushes values in the same way. After an error `out` may have some of them.
fn push_values(out: &mut Vec<u8>, most: usize, values: &[Option<Blob>]) -> Result<(), Unanswered>
    ensures pushed { OnOk result (out.new.items ≡ out.old.items ++ flat_map token (map value_token values.now)) }
    ensures more { (more : List ℕ) × (out.new.items ≡ out.old.items ++ more) }
    ensures fault { IfErr result (λ why. IsOfKeys why) }
{
    for value in values {
        match push_one(out, most, value.as_ref()) {
            Ok(()) => {}
            Err(why) => return Err(why),
        }
    }
    Ok(())
}

/// Gets the keys, and pushes an array of their values. After an error `out` may have a part of it.
fn get_each<S: Calls<Blob>, R: Wait>(
    context: &SessionContext<'_, R>,
    me: &mut S,
    keys: Arguments<'_>,
    out: &mut Vec<u8>,
) -> Result<(), Unanswered>
    ensures got { OnOk result ((answers : List (Option (List ℕ))) × (out.new.items ≡ out.old.items ++ flat_map token (Count (length (listed keys.entry)) ∷ map value_token answers)) × AreGot enc_blob S.limits (listed keys.entry) answers (S.shown me.old) (S.shown me.new)) }
    ensures more { (more : List ℕ) × (out.new.items ≡ out.old.items ++ more) }
    ensures fault { IfErr result (λ why. AreCutOff S.limits (listed keys.entry) why (S.shown me.old) (S.shown me.new)) }
{
    let most = out.len().saturating_add(MOST_REPLY);
    match push_count(out, keys.len()) {
        Ok(()) => {}
        Err(_) => return Err(Unanswered::Refused(MapRefusal::Memory)),
    }
    let mut rest = keys;
    while let Some((first, behind)) = rest.split_first() {
        let (values, others) = match next_values(context, me, first, behind) {
            Ok(next) => next,
            Err(why) => return Err(why),
        };
        match push_values(out, most, values.as_slice()) {
            Ok(()) => {}
            Err(why) => return Err(why),
        }
        rest = others;
    }
    Ok(())
}

/// MGET. The keys are got one after another, so the reply need not be one moment of the map.
pub(crate) fn answer_get_many<S: Calls<Blob>, R: Wait>(
    context: &SessionContext<'_, R>,
    me: &mut S,
    keys: Arguments<'_>,
    out: &mut Vec<u8>,
) -> Result<(), Unanswered>
    ensures { IsHandled (RepliesEach S.limits (listed keys.entry)) (AreCutOff S.limits (listed keys.entry)) (S.shown me.old) (S.shown me.new) out.old.items out.new.items result }
{
    let before = out.len();
    match get_each(context, me, keys, out) {
        Ok(()) => Ok(()),
        Err(why) => {
            out.truncate(before);
            Err(why)
        }
    }
}
