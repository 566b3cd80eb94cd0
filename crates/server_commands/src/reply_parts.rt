//! Parts of a reply, put behind what is there.
ghost use Rattle.std.specs.Prelude.{◌≡◌, [], ◌∷◌, ◌++◌, take, count_by, OnOk, OnErr};
ghost use Rattle.resp.specs.Replies.{token, Count, Number, String};
ghost use Rattle.server_commands.specs.Replying.{Replies, Tells, Grows};

use resp::{push_count, push_number, push_simple, push_string};
use std::alloc::AllocError;

/// A string of these bytes.
pub(crate) fn put_string(bytes: &[u8], out: &mut Vec<u8>) -> Result<(), AllocError>
    ensures told { OnOk result (Tells (String bytes.now ∷ []) out.old.items out.new.items) }
    ensures done { OnOk result (Replies 1 out.old.items out.new.items) }
    ensures grown { Grows out.old.items out.new.items }
{
    push_string(out, bytes)
}

/// A line of these bytes.
pub(crate) fn put_line(bytes: &[u8], out: &mut Vec<u8>) -> Result<(), AllocError>
    ensures done { OnOk result (Replies 1 out.old.items out.new.items) }
    ensures grown { Grows out.old.items out.new.items }
{
    push_simple(out, bytes)
}

pub(crate) fn put_number(number: i64, out: &mut Vec<u8>) -> Result<(), AllocError>
    ensures told { OnOk result (Tells (Number number ∷ []) out.old.items out.new.items) }
    ensures done { OnOk result (Replies 1 out.old.items out.new.items) }
    ensures grown { Grows out.old.items out.new.items }
{
    push_number(out, number)
}

/// A name, and a text.
pub(crate) fn put_word(name: &str, text: &str, out: &mut Vec<u8>) -> Result<(), AllocError>
    ensures told { OnOk result (Tells (String name.now ∷ String text.now ∷ []) out.old.items out.new.items) }
    ensures done { OnOk result (Replies 2 out.old.items out.new.items) }
    ensures grown { Grows out.old.items out.new.items }
{
    put_string(name.as_bytes(), out)?;
    put_string(text.as_bytes(), out)
}

/// The front of an array.
pub(crate) fn put_count(count: usize, out: &mut Vec<u8>) -> Result<(), AllocError>
    ensures done { OnOk result (out.new.items ≡ out.old.items ++ token (Count count)) }
    ensures grown { Grows out.old.items out.new.items }
{
    push_count(out, count)
}

/// After want of memory, cuts off what was put behind the first `before` bytes.
pub(crate) fn restored(
    done: Result<(), AllocError>,
    before: usize,
    out: &mut Vec<u8>,
) -> Result<(), AllocError>
    ensures same { result ≡ done }
    ensures kept { OnOk result (out.new.items ≡ out.old.items) }
    ensures cut { OnErr result (out.new.items ≡ take before out.old.items) }
{
    if done.is_err() {
        out.truncate(before);
    }
    done
}

/// How many are asked for.
pub(crate) fn count_asked(asked: &[bool]) -> usize
    ensures { result ≡ count_by (λ a. a) asked.now }
{
    asked.iter().filter(|a| **a).count()
}
