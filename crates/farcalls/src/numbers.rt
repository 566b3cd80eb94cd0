//! LEN, STATS and EVICT: requests that make no call of the history.
ghost use Rattle.std.specs.Prelude.{◌≡◌, ◌++◌, ◌∷◌, [], map, OnOk, OnErr, ℕ, List, length};
ghost use Rattle.std.specs.List.{flat_map};
ghost use Rattle.resp.specs.Replies.{Count, token};
ghost use Rattle.farcalls.specs.Tokens.{number_token};
ghost use Rattle.farcalls.specs.Answers.{RepliesLength, RepliesStats, RepliesMove, IsRefused, IsHandled};

use crate::context::SessionContext;
use crate::refusal::Unanswered;
use crate::replies::{push_count_of, push_flag};
use crate::sums::{SUMS, Sums};
use far_blob::Blob;
use far_map::{Calls, MapRefusal};
use resp::push_count;
use std::alloc::AllocError;
use std::sync::Wait;

/// How many numbers STATS replies: those that the session has counted, and 8 of the map.
const NUMBERS: usize = SUMS + 8;

/// The error if there is no memory for a reply.
const MEMORY: Unanswered = Unanswered::Refused(MapRefusal::Memory);

/// LEN.
pub(crate) fn answer_length<S: Calls<Blob>, R: Wait>(
    context: &SessionContext<'_, R>,
    me: &mut S,
    out: &mut Vec<u8>,
) -> Result<(), Unanswered>
    ensures { IsHandled RepliesLength IsRefused (S.shown me.old) (S.shown me.new) out.old.items out.new.items result }
{
    let _ = me;
    match push_count_of(out, context.pairs.sum()) {
        Ok(()) => Ok(()),
        Err(_) => Err(MEMORY),
    }
}

/// Pushes numbers. After an error `out` may have some of them.
fn push_numbers(out: &mut Vec<u8>, numbers: &[u64]) -> Result<(), AllocError>
    ensures pushed { OnOk result (out.new.items ≡ out.old.items ++ flat_map token (map number_token numbers.now)) }
    ensures more { (more : List ℕ) × (out.new.items ≡ out.old.items ++ more) }
{
    for n in numbers {
        match push_count_of(out, *n) {
            Ok(()) => {}
            Err(refused) => return Err(refused),
        }
    }
    Ok(())
}

/// What STATS replies: the sums of the session, and then what is known of the map.
fn numbers_of<S: Calls<Blob>, R>(
    context: &SessionContext<'_, R>,
    me: &S,
    sums: &Sums,
) -> [u64; NUMBERS] {
    let counted = sums.with(&me.stats(), &me.traffic());
    let mut numbers = [0; NUMBERS];
    for at in 0..SUMS {
        numbers[at] = counted[at];
    }
    numbers[SUMS] = context.pairs.sum();
    numbers[SUMS + 1] = me.bytes_in_frames();
    numbers[SUMS + 2] = context.settings.most_in_frames;
    numbers[SUMS + 3] = u64::from(me.buckets());
    numbers[SUMS + 4] = me.names_left();
    numbers[SUMS + 5] = context.renewal.count();
    numbers[SUMS + 6] = context.renewal.lost_pairs();
    numbers[SUMS + 7] = context.renewal.lost_buckets();
    numbers
}

/// Pushes an array of these numbers. After an error `out` may have some of them.
fn push_array(out: &mut Vec<u8>, numbers: &[u64; NUMBERS]) -> Result<(), AllocError>
    ensures pushed { OnOk result (out.new.items ≡ out.old.items ++ flat_map token (Count 23 ∷ map number_token numbers.now)) }
    ensures more { (more : List ℕ) × (out.new.items ≡ out.old.items ++ more) }
{
    match push_count(out, NUMBERS) {
        Ok(()) => push_numbers(out, numbers),
        Err(refused) => Err(refused),
    }
}

/// STATS.
pub(crate) fn answer_stats<S: Calls<Blob>, R: Wait>(
    context: &SessionContext<'_, R>,
    me: &mut S,
    sums: &Sums,
    out: &mut Vec<u8>,
) -> Result<(), Unanswered>
    ensures { IsHandled RepliesStats IsRefused (S.shown me.old) (S.shown me.new) out.old.items out.new.items result }
{
    let before = out.len();
    let numbers = numbers_of(context, me, sums);
    match push_array(out, &numbers) {
        Ok(()) => Ok(()),
        Err(_) => {
            out.truncate(before);
            Err(MEMORY)
        }
    }
}

/// EVICT.
pub(crate) fn answer_evict<S: Calls<Blob>, R: Wait>(
    context: &SessionContext<'_, R>,
    me: &mut S,
    out: &mut Vec<u8>,
) -> Result<(), Unanswered>
    ensures { IsHandled RepliesMove IsRefused (S.shown me.old) (S.shown me.new) out.old.items out.new.items result }
{
    let moved = match me.evict(context.rt) {
        Ok(moved) => moved,
        Err(why) => return Err(Unanswered::Refused(why)),
    };
    match push_flag(out, moved) {
        Ok(()) => Ok(()),
        Err(_) => Err(MEMORY),
    }
}
