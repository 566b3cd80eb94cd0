//! A command on a key is carried out on the value that the key has.
ghost use Rattle.std.specs.Prelude.{◌≡◌, ◌++◌, ℕ, List, Option, IsTrue, IfOk, OnErr};
ghost use Rattle.std.specs.Option.{option_copied};
ghost use Rattle.resp.specs.Replies.{Token, token};
ghost use Rattle.key_commands.specs.Answers.{seen, Performs};
ghost use Rattle.key_commands.specs.Outcomes.{Outcome, After, IsEffect, cleaned};
ghost use Rattle.key_commands.specs.Doing.{IsOutcome, Does};

use crate::float_increment::add_float;
use crate::key_command::{Effect, KeyCommand, answer_of};
use crate::output::perform;
use crate::value::{Live, unexpired};
use commands::{Lifetime, Where};
use std::alloc::AllocError;

fn carry_out(
    command: KeyCommand<'_>,
    now: u64,
    most: u32,
    present: Option<Live<'_>>,
    value: &mut Vec<u8>,
    reply: &mut Vec<u8>,
) -> Result<Effect, AllocError>
    ensures done { IfOk result (λ effect. (o : Outcome) × IsOutcome command.entry now most (seen present.entry) o × Performs o effect value.new.items reply.old.items reply.new.items) }
    ensures kept { OnErr result (reply.new.items ≡ reply.old.items) }
{
    if let KeyCommand::AddFloat(by) = command {
        return add_float(by, present, value, reply);
    }
    perform(answer_of(command, now, most, present), value, reply)
}

/// An expired value that would stay is taken out.
fn clean(found: Option<&[u8]>, present: Option<Live<'_>>, effect: Effect) -> Effect
    ensures { (after : After) (value : List ℕ) → IsEffect after effect value → IsEffect (cleaned (option_copied found.entry) (seen present.entry) after) result value }
{
    match (found, present, effect) {
        (Some(_), None, Effect::Leaves) => Effect::Removes,
        (_, _, other) => other,
    }
}

/// Carries out a command on a key that has these stored bytes, its deadline and behind it its value, at a time in
/// milliseconds since 1970. No value may be longer than `most` bytes.
///
/// The reply, one token, is put behind what `reply` has; an error that Redis has too is a reply like another. Where the key
/// is to be set, `value` has the stored bytes then, and nothing of what it had before; else it may have anything. An expired
/// value is none to any command, and is to be taken out where it would stay: the caller removes just the bytes that it
/// found. After want of memory `reply` has what it had.
pub fn apply(
    command: KeyCommand<'_>,
    now: u64,
    most: u32,
    found: Option<&[u8]>,
    value: &mut Vec<u8>,
    reply: &mut Vec<u8>,
) -> Result<Effect, AllocError>
    ensures done { IfOk result (λ effect. (r : Token) × (reply.new.items ≡ reply.old.items ++ token r) × Does command.entry now most (option_copied found.entry) r effect value.new.items) }
    ensures kept { OnErr result (reply.new.items ≡ reply.old.items) }
{
    let present = unexpired(now, found);
    let effect = carry_out(command, now, most, present, value, reply)?;
    Ok(clean(found, present, effect))
}

/// Whether a command that sets the key replies and sets the same whatever the key has, so that nobody has to look first: a
/// SET without NX, XX, GET and KEEPTTL.
pub fn is_blind(command: KeyCommand<'_>) -> bool
    ensures { IsTrue result → (now most : ℕ) (f g : Option (List ℕ)) (r : Token) (value : List ℕ)
        → Does command.entry now most f r Effect.Sets value → Does command.entry now most g r Effect.Sets value }
{
    match command {
        KeyCommand::Set { value: _, change } => {
            matches!(change.to, Where::Always)
                && !change.get
                && !matches!(change.lifetime, Lifetime::Keep)
        }
        _ => false,
    }
}
