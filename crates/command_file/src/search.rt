//! Where a byte stands first and last, and how many times.
ghost use Rattle.std.specs.Prelude.{◌≡◌, ◌≢◌, ◌==◌, ◌<◌, ◌+◌, ◌^◌, length, take, drop, slice_index, count_by, All, MatchOption};

use memchr::{memchr, memrchr};

/// How many bytes are counted at once: few enough that their number fits a byte, and a whole number of vectors.
const BLOCK_BYTES: usize = 192;

/// Where the byte stands first.
pub(crate) fn first_place(byte: u8, bytes: &[u8]) -> Option<usize>
    ensures { MatchOption result (All (λ b. b ≢ byte) bytes.now)
        (λ at. (at < length bytes.now) × (slice_index bytes.now at ≡ byte) × All (λ b. b ≢ byte) (take at bytes.now)) }
{
    memchr(byte, bytes)
}

/// Where the byte stands last.
pub(crate) fn last_place(byte: u8, bytes: &[u8]) -> Option<usize>
    ensures { MatchOption result (All (λ b. b ≢ byte) bytes.now)
        (λ at. (at < length bytes.now) × (slice_index bytes.now at ≡ byte) × All (λ b. b ≢ byte) (drop (at + 1) bytes.now)) }
{
    memrchr(byte, bytes)
}

/// How many times the byte stands there.
pub(crate) fn times(byte: u8, bytes: &[u8]) -> u32
    requires { length bytes.now < 2 ^ 32 }
    ensures { result ≡ count_by (λ b. b == byte) bytes.now }
{
    let mut count = 0;
    let mut rest = bytes;
    while !rest.is_empty() {
        let (block, behind) = rest.split_at(rest.len().min(BLOCK_BYTES));
        count += u32::from(times_in_block(byte, block));
        rest = behind;
    }
    count
}

// The count is a byte, so that a vector has as many counts as bytes.
fn times_in_block(byte: u8, block: &[u8]) -> u8
    requires { length block.now < 2 ^ 8 }
    ensures { result ≡ count_by (λ b. b == byte) block.now }
{
    let mut count = 0;
    for b in block {
        count += u8::from(*b == byte);
    }
    count
}
