//! How long a reply may be.
ghost use Rattle.std.specs.Prelude.{◌≡◌, ◌≤◌, ◌<◌, ◌+◌, true, false};
ghost use Rattle.far_server.specs.Bounds.{longest};

/// The most bytes of the keys of a page of SCAN that has keys of more than one bucket. What surrounds each
/// key in the reply counts too.
pub(crate) const MOST_PAGE: usize = 1 << 20;

/// How many bytes a string's reply has in addition to the string: `$`, at most ten digits, two line ends, and
/// one byte more.
pub(crate) const FRAMING: usize = 16;

/// The error in place of a reply that would be longer.
pub(crate) const TOO_LARGE: &[u8] = b"ERR reply is too large";

/// Whether a reply that has `used` bytes has at most `limit` after a value of `most` bytes is added.
pub(crate) fn may_grow_to(limit: usize, used: usize, most: u32) -> bool
    ensures fits { result ≡ true → used + longest most ≤ limit }
    ensures passes { result ≡ false → limit < used + longest most }
{
    let longest = most as usize + FRAMING;
    longest <= limit.saturating_sub(used)
}
