//! Deadlines of stored values.
ghost use Rattle.std.specs.Prelude.{IsTrue};
ghost use Rattle.far_server.specs.Sweeps.{IsOver};

use commands::{is_expired, read_stored};
use far_blob::Blob;

/// Whether stored bytes have a deadline.
pub(crate) fn has_deadline(stored: &[u8]) -> bool {
    match read_stored(stored) {
        Some((deadline, _)) => deadline != 0,
        None => false,
    }
}

/// Whether a stored value is expired at the time `now`, in milliseconds since 1970. At 0 none is.
pub(crate) fn is_over(value: &Blob, now: u64) -> bool
    ensures { IsTrue result → IsOver now value.now }
{
    match read_stored(value.as_bytes()) {
        Some((deadline, _)) => is_expired(deadline, now),
        None => false,
    }
}
