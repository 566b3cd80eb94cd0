//! Answers a request by calls of the session.
ghost use Rattle.std.specs.Prelude.{◌≡◌, ◌++◌, ℕ, List, OnOk, OnErr};
ghost use Rattle.std.specs.List.{flat_map};
ghost use Rattle.resp.specs.Replies.{Token, Failure, token};
ghost use Rattle.commands.specs.Arguments.{listed};
ghost use Rattle.farcalls.specs.declared.reason.FarReason.{FarReason as any_reason};
ghost use Rattle.farcalls.specs.Answers.{IsServed, IsFailed, IsHandled, IsReplied, IsAnswered, error_text};

use crate::context::SessionContext;
use crate::numbers::{answer_evict, answer_length, answer_stats};
use crate::one_key::{
    answer_contains, answer_get, answer_put, answer_put_if, answer_put_new, answer_remove,
    answer_remove_if, answer_set, answer_take,
};
use crate::pairs::answer_pairs;
use crate::refusal::{Unanswered, error_text};
use crate::request::{Request, read};
use crate::several_keys::answer_get_many;
use crate::sums::Sums;
use commands::Arguments;
use far_blob::Blob;
use far_map::{Calls, MapRefusal};
use resp::push_failure;
use std::alloc::AllocError;
use std::sync::Wait;

/// Makes the calls of a request, and pushes the reply. If an error is returned, `out` is as before.
fn handle<S: Calls<Blob>, R: Wait>(
    context: &SessionContext<'_, R>,
    me: &mut S,
    sums: &Sums,
    request: Request<'_>,
    out: &mut Vec<u8>,
) -> Result<(), Unanswered>
    ensures { IsHandled (IsServed S.limits request.entry) (IsFailed S.limits request.entry) (S.shown me.old) (S.shown me.new) out.old.items out.new.items result }
{
    match request {
        Request::Get(key) => answer_get(context, me, key, out),
        Request::GetMany(keys) => answer_get_many(context, me, keys, out),
        Request::Contains(key) => answer_contains(context, me, key, out),
        Request::Put(key, value) => answer_put(context, me, key, value, out),
        Request::Set(key, value) => answer_set(context, me, key, value, out),
        Request::PutIf(key, expected, value) => {
            answer_put_if(context, me, key, expected, value, out)
        }
        Request::PutNew(key, value) => answer_put_new(context, me, key, value, out),
        Request::Remove(key) => answer_remove(context, me, key, out),
        Request::Take(key) => answer_take(context, me, key, out),
        Request::RemoveIf(key, expected) => answer_remove_if(context, me, key, expected, out),
        Request::Pairs(from) => answer_pairs(context, me, from, out),
        Request::Length => answer_length(context, me, out),
        Request::Stats => answer_stats(context, me, sums, out),
        Request::Evict => answer_evict(context, me, out),
    }
}

/// Pushes the error. If no version number is left, a renewal is asked for.
fn refuse<R>(
    context: &SessionContext<'_, R>,
    why: Unanswered,
    out: &mut Vec<u8>,
) -> Result<(), AllocError>
    ensures { OnOk result ((known : any_reason) × (out.new.items ≡ out.old.items ++ token (Failure (error_text context.now.settings.now.is_far known why)))) }
{
    if why == Unanswered::Refused(MapRefusal::NamesSpent) {
        context.renewal.ask();
    }
    push_failure(
        out,
        error_text(context.settings.is_far, context.reason.get(), why),
    )
}

/// Answers a request, and pushes the reply.
fn answer_request<S: Calls<Blob>, R: Wait>(
    context: &SessionContext<'_, R>,
    me: &mut S,
    sums: &Sums,
    request: Request<'_>,
    out: &mut Vec<u8>,
) -> Result<(), AllocError>
    ensures { OnOk result ((rs : List Token) × (out.new.items ≡ out.old.items ++ flat_map token rs) × IsReplied S.limits context.now.settings.now.is_far request.entry (S.shown me.old) (S.shown me.new) rs) }
{
    match handle(context, me, sums, request, out) {
        Ok(()) => Ok(()),
        Err(why) => refuse(context, why, out),
    }
}

/// Answers the request that has these words, and pushes the reply to the end of `out`. There is room for a
/// short one.
pub(crate) fn answer<S: Calls<Blob>, R: Wait>(
    context: &SessionContext<'_, R>,
    me: &mut S,
    sums: &Sums,
    words: Arguments<'_>,
    out: &mut Vec<u8>,
) -> Result<(), AllocError>
    ensures { OnOk result ((rs : List Token) × (out.new.items ≡ out.old.items ++ flat_map token rs) × IsAnswered S.limits context.now.settings.now.is_far (listed words.entry) (S.shown me.old) (S.shown me.new) rs) }
{
    match read(words) {
        Some(request) => answer_request(context, me, sums, request, out),
        None => push_failure(
            out,
            b"UNKNOWN no such request, or another number of arguments",
        ),
    }
}
