//! The form of a stored value: its deadline, and behind it its bytes.
ghost use Rattle.std.specs.Prelude.{◌≡◌, ◌≢◌, ◌≤◌, ◌<◌, ◌↔◌, ◌++◌, length, take, drop, IsTrue, OnOk, OnErr, MatchOption};
ghost use Rattle.commands.specs.Stored.{stored};

use std::alloc::AllocError;

/// How many bytes a deadline takes.
pub const DEADLINE_LEN: usize = 8;

/// Puts a value in its stored form behind what is there. The deadline is in milliseconds since 1970, and 0 for none. After
/// an error a beginning of it may be there.
pub fn push_stored(out: &mut Vec<u8>, deadline: u64, value: &[u8]) -> Result<(), AllocError>
    ensures { OnOk result (out.new.items ≡ out.old.items ++ stored deadline value.now) }
{
    out.extend_from_slice(&deadline.to_be_bytes())?;
    out.extend_from_slice(value)?;
    Ok(())
}

/// The deadline and the value of stored bytes. `None` where they are too few for a deadline.
pub fn read_stored(bytes: &[u8]) -> Option<(u64, &[u8])>
    ensures { MatchOption result (length bytes.now < DEADLINE_LEN) (λ r. bytes.now ≡ stored r.0 r.1.now) }
{
    let (front, value) = bytes.split_first_chunk::<DEADLINE_LEN>()?;
    Some((u64::from_be_bytes(*front), value))
}

/// Whether a value of this deadline is absent at this time, both in milliseconds since 1970.
pub fn is_expired(deadline: u64, now: u64) -> bool
    ensures { IsTrue result ↔ (deadline ≢ 0) × (deadline ≤ now) }
{
    deadline != 0 && deadline <= now
}
