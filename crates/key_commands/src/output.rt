//! An answer is written: the value into one buffer, the reply behind what is in another.
ghost use Rattle.std.specs.Prelude.{◌≡◌, ◌++◌, IfOk, OnOk, OnErr};
ghost use Rattle.resp.specs.Replies.{token};
ghost use Rattle.commands.specs.Stored.{stored};
ghost use Rattle.key_commands.specs.Answers.{said, written, outcome_of, after_of, Performs};
ghost use Rattle.key_commands.specs.Outcomes.{IsEffect};
ghost use Rattle.key_commands.specs.Editing.{over};

use crate::answer::{Answer, Bytes, Fate, Reply};
use crate::key_command::Effect;
use commands::push_stored;
use itoa::Buffer;
use resp::{push_failure, push_nothing, push_number, push_simple, push_string};
use std::alloc::AllocError;

fn push_over(old: &[u8], offset: u32, new: &[u8], out: &mut Vec<u8>) -> Result<(), AllocError>
    ensures { OnOk result (out.new.items ≡ out.old.items ++ over offset new.now old.now) }
{
    let offset = offset as usize;
    let front = offset.min(old.len());
    let behind = (offset + new.len()).min(old.len());
    out.extend_from_slice(&old[..front])?;
    out.resize(out.len() + (offset - front), 0)?;
    out.extend_from_slice(new)?;
    out.extend_from_slice(&old[behind..])?;
    Ok(())
}

fn push_bytes(bytes: Bytes<'_>, out: &mut Vec<u8>) -> Result<(), AllocError>
    ensures { OnOk result (out.new.items ≡ out.old.items ++ written bytes.entry) }
{
    match bytes {
        Bytes::Given(given) => out.extend_from_slice(given),
        Bytes::Joined(front, behind) => {
            out.extend_from_slice(front)?;
            out.extend_from_slice(behind)
        }
        Bytes::Over { old, offset, new } => push_over(old, offset, new, out),
        Bytes::Spelled(number) => {
            let mut digits = Buffer::new();
            out.extend_from_slice(digits.format(number).as_bytes())
        }
    }
}

fn write_value(deadline: u64, bytes: Bytes<'_>, out: &mut Vec<u8>) -> Result<(), AllocError>
    ensures { OnOk result (out.new.items ≡ stored deadline (written bytes.entry)) }
{
    out.clear();
    push_stored(out, deadline, b"")?;
    push_bytes(bytes, out)
}

fn write_fate(fate: Fate<'_>, out: &mut Vec<u8>) -> Result<Effect, AllocError>
    ensures { IfOk result (λ effect. IsEffect (after_of fate.entry) effect out.new.items) }
{
    match fate {
        Fate::Stays => Ok(Effect::Leaves),
        Fate::Goes => Ok(Effect::Removes),
        Fate::Becomes { deadline, bytes } => {
            write_value(deadline, bytes, out)?;
            Ok(Effect::Sets)
        }
    }
}

fn push_reply(what: Reply<'_>, reply: &mut Vec<u8>) -> Result<(), AllocError>
    ensures items { OnOk result (reply.new.items ≡ reply.old.items ++ token (said what.entry)) }
    ensures kept { OnErr result (reply.new.items ≡ reply.old.items) }
{
    match what {
        Reply::Nothing => push_nothing(reply),
        Reply::Number(number) => push_number(reply, number),
        Reply::String(bytes) => push_string(reply, bytes),
        Reply::Line(line) => push_simple(reply, line.text()),
        Reply::Failure(refusal) => push_failure(reply, refusal.text()),
    }
}

pub(crate) fn perform(
    answer: Answer<'_>,
    out: &mut Vec<u8>,
    reply: &mut Vec<u8>,
) -> Result<Effect, AllocError>
    ensures done { IfOk result (λ effect. Performs (outcome_of answer.entry) effect out.new.items reply.old.items reply.new.items) }
    ensures kept { OnErr result (reply.new.items ≡ reply.old.items) }
{
    let effect = write_fate(answer.fate, out)?;
    push_reply(answer.reply, reply)?;
    Ok(effect)
}
