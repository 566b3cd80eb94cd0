//! The calls of requests on one key.
//!
//! A call that changed nothing is refused with `MEMORY` if there is no memory for it or for its reply. If a call
//! has changed the map, and there is no memory for its reply, that is `Lost`, and no other request is.
ghost use Rattle.std.specs.Prelude.{◌≡◌, ◌⊎◌, ◌∷◌, [], Some, None, IfOk, IfErr};
ghost use Rattle.table_core.specs.declared.operation.Operation.TheVariants as op;
ghost use Rattle.farcalls.specs.Calls.{IsKeyFault, IsValueFault, IsUnmade, IsCalled, IsFlagCalled, IsFlagOf, IsRemoved};
ghost use Rattle.farcalls.specs.Answers.{IsHandled, RepliesValue, RepliesFlag, RepliesIf, RepliesRemoval, IsUnremoved};

use crate::context::SessionContext;
use crate::refusal::Unanswered;
use crate::replies::{reply_flag, reply_if, reply_removal, reply_value};
use crate::room::has_room;
use far_blob::{Blob, BlobFault};
use far_map::{Calls, MapRefusal, Removal, text};
use far_object::Text;
use std::alloc::Global;
use std::sync::Wait;

/// The text of a key. Any bytes are a text.
pub(crate) fn key_of(alloc: Global, key: &[u8]) -> Result<Text, Unanswered>
    ensures text { IfOk result (λ t. t ≡ key.now) }
    ensures fault { IfErr result (λ why. IsKeyFault key.now why) }
{
    match text(alloc, key) {
        Ok(key) => Ok(key),
        Err(MapRefusal::TooLong) => Err(Unanswered::KeyTooLong),
        Err(_) => Err(Unanswered::Refused(MapRefusal::Memory)),
    }
}

/// The blob of a value.
fn value_of(alloc: Global, value: &[u8]) -> Result<Blob, Unanswered>
    ensures value { IfOk result (λ v. v ≡ value.now) }
    ensures fault { IfErr result (λ why. IsValueFault value.now why) }
{
    match Blob::new(alloc, value) {
        Ok(value) => Ok(value),
        Err(BlobFault::TooLong) => Err(Unanswered::ValueTooLong),
        Err(BlobFault::Memory) => Err(Unanswered::Refused(MapRefusal::Memory)),
    }
}

/// The text of a key, and the blob of a value.
fn pair_of(alloc: Global, key: &[u8], value: &[u8]) -> Result<(Text, Blob), Unanswered>
    ensures pair { IfOk result (λ p. (p.0 ≡ key.now) × (p.1 ≡ value.now)) }
    ensures fault { IfErr result (λ why. IsKeyFault key.now why ⊎ IsValueFault value.now why) }
{
    let key = match key_of(alloc, key) {
        Ok(key) => key,
        Err(why) => return Err(why),
    };
    match value_of(alloc, value) {
        Ok(value) => Ok((key, value)),
        Err(why) => Err(why),
    }
}

/// Gets a key.
fn get<S: Calls<Blob>, R: Wait>(
    context: &SessionContext<'_, R>,
    me: &mut S,
    key: &[u8],
) -> Result<Option<Blob>, Unanswered>
    ensures { IsCalled S.limits [] (op.Get key.now) (S.shown me.old) (S.shown me.new) result }
{
    let key = match key_of(context.alloc, key) {
        Ok(key) => key,
        Err(why) => return Err(why),
    };
    match me.get(context.rt, &key) {
        Ok(found) => Ok(found),
        Err(why) => Err(Unanswered::Refused(why)),
    }
}

/// Whether a key has a value.
fn contains<S: Calls<Blob>, R: Wait>(
    context: &SessionContext<'_, R>,
    me: &mut S,
    key: &[u8],
) -> Result<bool, Unanswered>
    ensures { IsFlagCalled S.limits [] (op.Get key.now) (S.shown me.old) (S.shown me.new) result }
{
    let key = match key_of(context.alloc, key) {
        Ok(key) => key,
        Err(why) => return Err(why),
    };
    match me.contains(context.rt, &key) {
        Ok(flag) => Ok(flag),
        Err(why) => Err(Unanswered::Refused(why)),
    }
}

/// Sets a key, and returns the value before.
fn put<S: Calls<Blob>, R: Wait>(
    context: &SessionContext<'_, R>,
    me: &mut S,
    key: &[u8],
    value: &[u8],
) -> Result<Option<Blob>, Unanswered>
    ensures { IsCalled S.limits (value.now ∷ []) (op.Put key.now value.now) (S.shown me.old) (S.shown me.new) result }
{
    let (key, value) = match pair_of(context.alloc, key, value) {
        Ok(pair) => pair,
        Err(why) => return Err(why),
    };
    if !has_room(context, me) {
        return Err(Unanswered::NoRoom);
    }
    match me.put(context.rt, &key, &value) {
        Ok(before) => {
            if before.is_none() {
                context.count_added();
            }
            Ok(before)
        }
        Err(why) => Err(Unanswered::Refused(why)),
    }
}

/// Removes a key, and returns the value that it had.
fn remove<S: Calls<Blob>, R: Wait>(
    context: &SessionContext<'_, R>,
    me: &mut S,
    key: &[u8],
) -> Result<Option<Blob>, Unanswered>
    ensures { IsCalled S.limits [] (op.Remove key.now) (S.shown me.old) (S.shown me.new) result }
{
    let key = match key_of(context.alloc, key) {
        Ok(key) => key,
        Err(why) => return Err(why),
    };
    match me.remove(context.rt, &key) {
        Ok(before) => {
            if before.is_some() {
                context.count_removed();
            }
            Ok(before)
        }
        Err(why) => Err(Unanswered::Refused(why)),
    }
}

/// Sets a key if it has no value, and returns the value that it has.
fn put_new<S: Calls<Blob>, R: Wait>(
    context: &SessionContext<'_, R>,
    me: &mut S,
    key: &[u8],
    value: &[u8],
) -> Result<Option<Blob>, Unanswered>
    ensures { IsCalled S.limits (value.now ∷ []) (op.PutIf key.now None value.now) (S.shown me.old) (S.shown me.new) result }
{
    let (key, value) = match pair_of(context.alloc, key, value) {
        Ok(pair) => pair,
        Err(why) => return Err(why),
    };
    if !has_room(context, me) {
        return Err(Unanswered::NoRoom);
    }
    match me.put_if(context.rt, &key, None, &value) {
        Ok(found) => {
            if found.is_none() {
                context.count_added();
            }
            Ok(found)
        }
        Err(why) => Err(Unanswered::Refused(why)),
    }
}

/// Sets a key if it has the expected value, and returns the value before.
fn put_if<S: Calls<Blob>, R: Wait>(
    context: &SessionContext<'_, R>,
    me: &mut S,
    key: &[u8],
    expected: &[u8],
    value: &[u8],
) -> Result<Option<Blob>, Unanswered>
    ensures { IsCalled S.limits (expected.now ∷ value.now ∷ []) (op.PutIf key.now (Some expected.now) value.now) (S.shown me.old) (S.shown me.new) result }
{
    let (key, value) = match pair_of(context.alloc, key, value) {
        Ok(pair) => pair,
        Err(why) => return Err(why),
    };
    let expected = match value_of(context.alloc, expected) {
        Ok(expected) => expected,
        Err(why) => return Err(why),
    };
    if !has_room(context, me) {
        return Err(Unanswered::NoRoom);
    }
    match me.put_if(context.rt, &key, Some(&expected), &value) {
        Ok(found) => Ok(found),
        Err(why) => Err(Unanswered::Refused(why)),
    }
}

/// Removes a key if it has the expected value.
fn remove_if<S: Calls<Blob>, R: Wait>(
    context: &SessionContext<'_, R>,
    me: &mut S,
    key: &[u8],
    expected: &[u8],
) -> Result<Removal<Blob>, Unanswered>
    ensures { IsRemoved S.limits key.now expected.now (S.shown me.old) (S.shown me.new) result }
{
    let (key, expected) = match pair_of(context.alloc, key, expected) {
        Ok(pair) => pair,
        Err(why) => return Err(why),
    };
    match me.remove_if(context.rt, &key, &expected) {
        Ok(removal) => {
            if removal.removed {
                context.count_removed();
            }
            Ok(removal)
        }
        Err(why) => Err(Unanswered::Refused(why)),
    }
}

/// Whether a call found a value.
fn flag_of(called: Result<Option<Blob>, Unanswered>) -> Result<bool, Unanswered>
    ensures { IsFlagOf called result }
{
    match called {
        Ok(before) => Ok(before.is_some()),
        Err(why) => Err(why),
    }
}

/// GET.
pub(crate) fn answer_get<S: Calls<Blob>, R: Wait>(
    context: &SessionContext<'_, R>,
    me: &mut S,
    key: &[u8],
    out: &mut Vec<u8>,
) -> Result<(), Unanswered>
    ensures { IsHandled (RepliesValue S.limits (op.Get key.now)) (IsUnmade S.limits [] (op.Get key.now)) (S.shown me.old) (S.shown me.new) out.old.items out.new.items result }
{
    let called = get(context, me, key);
    reply_value(called, Unanswered::Refused(MapRefusal::Memory), out)
}

/// HAS.
pub(crate) fn answer_contains<S: Calls<Blob>, R: Wait>(
    context: &SessionContext<'_, R>,
    me: &mut S,
    key: &[u8],
    out: &mut Vec<u8>,
) -> Result<(), Unanswered>
    ensures { IsHandled (RepliesFlag S.limits (op.Get key.now)) (IsUnmade S.limits [] (op.Get key.now)) (S.shown me.old) (S.shown me.new) out.old.items out.new.items result }
{
    let called = contains(context, me, key);
    reply_flag(called, Unanswered::Refused(MapRefusal::Memory), out)
}

/// PUT.
pub(crate) fn answer_put<S: Calls<Blob>, R: Wait>(
    context: &SessionContext<'_, R>,
    me: &mut S,
    key: &[u8],
    value: &[u8],
    out: &mut Vec<u8>,
) -> Result<(), Unanswered>
    ensures { IsHandled (RepliesValue S.limits (op.Put key.now value.now)) (IsUnmade S.limits (value.now ∷ []) (op.Put key.now value.now)) (S.shown me.old) (S.shown me.new) out.old.items out.new.items result }
{
    let called = put(context, me, key, value);
    reply_value(called, Unanswered::Lost, out)
}

/// SET.
pub(crate) fn answer_set<S: Calls<Blob>, R: Wait>(
    context: &SessionContext<'_, R>,
    me: &mut S,
    key: &[u8],
    value: &[u8],
    out: &mut Vec<u8>,
) -> Result<(), Unanswered>
    ensures { IsHandled (RepliesFlag S.limits (op.Put key.now value.now)) (IsUnmade S.limits (value.now ∷ []) (op.Put key.now value.now)) (S.shown me.old) (S.shown me.new) out.old.items out.new.items result }
{
    let called = flag_of(put(context, me, key, value));
    reply_flag(called, Unanswered::Lost, out)
}

/// REMOVE.
pub(crate) fn answer_remove<S: Calls<Blob>, R: Wait>(
    context: &SessionContext<'_, R>,
    me: &mut S,
    key: &[u8],
    out: &mut Vec<u8>,
) -> Result<(), Unanswered>
    ensures { IsHandled (RepliesFlag S.limits (op.Remove key.now)) (IsUnmade S.limits [] (op.Remove key.now)) (S.shown me.old) (S.shown me.new) out.old.items out.new.items result }
{
    let called = flag_of(remove(context, me, key));
    reply_flag(called, Unanswered::Lost, out)
}

/// TAKE.
pub(crate) fn answer_take<S: Calls<Blob>, R: Wait>(
    context: &SessionContext<'_, R>,
    me: &mut S,
    key: &[u8],
    out: &mut Vec<u8>,
) -> Result<(), Unanswered>
    ensures { IsHandled (RepliesValue S.limits (op.Remove key.now)) (IsUnmade S.limits [] (op.Remove key.now)) (S.shown me.old) (S.shown me.new) out.old.items out.new.items result }
{
    let called = remove(context, me, key);
    reply_value(called, Unanswered::Lost, out)
}

/// PUTNEW.
pub(crate) fn answer_put_new<S: Calls<Blob>, R: Wait>(
    context: &SessionContext<'_, R>,
    me: &mut S,
    key: &[u8],
    value: &[u8],
    out: &mut Vec<u8>,
) -> Result<(), Unanswered>
    ensures { IsHandled (RepliesIf S.limits key.now None value.now) (IsUnmade S.limits (value.now ∷ []) (op.PutIf key.now None value.now)) (S.shown me.old) (S.shown me.new) out.old.items out.new.items result }
{
    let called = put_new(context, me, key, value);
    reply_if(called, None, out)
}

/// PUTIF.
pub(crate) fn answer_put_if<S: Calls<Blob>, R: Wait>(
    context: &SessionContext<'_, R>,
    me: &mut S,
    key: &[u8],
    expected: &[u8],
    value: &[u8],
    out: &mut Vec<u8>,
) -> Result<(), Unanswered>
    ensures { IsHandled (RepliesIf S.limits key.now (Some expected.now) value.now) (IsUnmade S.limits (expected.now ∷ value.now ∷ []) (op.PutIf key.now (Some expected.now) value.now)) (S.shown me.old) (S.shown me.new) out.old.items out.new.items result }
{
    let called = put_if(context, me, key, expected, value);
    reply_if(called, Some(expected), out)
}

/// REMOVEIF.
pub(crate) fn answer_remove_if<S: Calls<Blob>, R: Wait>(
    context: &SessionContext<'_, R>,
    me: &mut S,
    key: &[u8],
    expected: &[u8],
    out: &mut Vec<u8>,
) -> Result<(), Unanswered>
    ensures { IsHandled (RepliesRemoval S.limits key.now expected.now) (IsUnremoved S.limits key.now expected.now) (S.shown me.old) (S.shown me.new) out.old.items out.new.items result }
{
    let called = remove_if(context, me, key, expected);
    reply_removal(called, out)
}
