//! Replies of one token: an error, a status, a string, a number or the null reply.
ghost use Rattle.std.specs.Prelude.{◌≡◌, ◌++◌, ◌∷◌, [], ℕ, List, OnOk, OnErr};
ghost use Rattle.std.specs.List.{flat_map};
ghost use Rattle.resp.specs.Replies.{Failure, Simple, String, Number, Nothing, token};
ghost use Rattle.server_commands.specs.Replying.{Replies};

use crate::refusal::text_of;
use crate::reserve::has_room_for;
use commands::CommandFault;
use far_map::MapRefusal;
use resp::{push_failure, push_nothing, push_number, push_simple, push_string};
use std::alloc::AllocError;

/// Pushes an error. If memory is refused, `reply` is as before.
pub(crate) fn push_one_failure(reply: &mut Vec<u8>, text: &[u8]) -> Result<(), AllocError>
    ensures exact { OnOk result (reply.new.items ≡ reply.old.items ++ flat_map token (Failure text.now ∷ [])) }
    ensures said { OnOk result (Replies 1 reply.old.items reply.new.items) }
    ensures kept { OnErr result (reply.new.items ≡ reply.old.items) }
{
    push_failure(reply, text)
}

/// Pushes a status. If memory is refused, `reply` is as before.
pub(crate) fn push_one_simple(reply: &mut Vec<u8>, text: &[u8]) -> Result<(), AllocError>
    ensures exact { OnOk result (reply.new.items ≡ reply.old.items ++ flat_map token (Simple text.now ∷ [])) }
    ensures said { OnOk result (Replies 1 reply.old.items reply.new.items) }
    ensures kept { OnErr result (reply.new.items ≡ reply.old.items) }
{
    push_simple(reply, text)
}

/// Pushes a string. If memory is refused, `reply` is as before.
pub(crate) fn push_one_string(reply: &mut Vec<u8>, bytes: &[u8]) -> Result<(), AllocError>
    ensures exact { OnOk result (reply.new.items ≡ reply.old.items ++ flat_map token (String bytes.now ∷ [])) }
    ensures said { OnOk result (Replies 1 reply.old.items reply.new.items) }
    ensures kept { OnErr result (reply.new.items ≡ reply.old.items) }
{
    push_string(reply, bytes)
}

/// Pushes a number. If memory is refused, `reply` is as before.
pub(crate) fn push_one_number(reply: &mut Vec<u8>, n: i64) -> Result<(), AllocError>
    ensures exact { OnOk result (reply.new.items ≡ reply.old.items ++ flat_map token (Number n ∷ [])) }
    ensures said { OnOk result (Replies 1 reply.old.items reply.new.items) }
    ensures kept { OnErr result (reply.new.items ≡ reply.old.items) }
{
    push_number(reply, n)
}

/// Pushes the null reply. If memory is refused, `reply` is as before.
pub(crate) fn push_one_nothing(reply: &mut Vec<u8>) -> Result<(), AllocError>
    ensures exact { OnOk result (reply.new.items ≡ reply.old.items ++ flat_map token (Nothing ∷ [])) }
    ensures said { OnOk result (Replies 1 reply.old.items reply.new.items) }
    ensures kept { OnErr result (reply.new.items ≡ reply.old.items) }
{
    push_nothing(reply)
}

/// Pushes the error of a fault, if there is also room for `beside` bytes after it. If memory is refused for
/// one of both, the reply is that error.
pub(crate) fn push_one_fault(
    reply: &mut Vec<u8>,
    fault: CommandFault<'_>,
    beside: usize,
) -> Result<(), AllocError>
    ensures { OnOk result ((text : List ℕ) × (reply.new.items ≡ reply.old.items ++ flat_map token (Failure text ∷ []))) }
{
    let before = reply.len();
    match server_commands::fault(fault, reply) {
        Ok(()) => {
            if has_room_for(beside, reply) {
                return Ok(());
            }
            reply.truncate(before);
        }
        Err(_) => {}
    }
    push_one_failure(reply, text_of(MapRefusal::Memory))
}
