//! The first bytes of a key, as a number.
//!
//! # Why
//!
//! Keys that are put in order lie anywhere in more memory than a processor has at hand, and to compare two of them is to wait for
//! both. Beside the place of each key stands the number that its first bytes spell: where two of these differ, they tell the order.
ghost use Rattle.std.specs.Prelude.{◌≡◌, ◌<◌, ℕ, get_or};
ghost use Rattle.far_pairs.specs.Heads.{spelled};

/// Of how many bytes the number is.
const HEAD: usize = 16;

/// The first 16 bytes. Where there are fewer, zeros stand behind them.
fn padded(bytes: &[u8]) -> [u8; HEAD]
    ensures { (i : ℕ) → i < 16 → get_or result i 0 ≡ get_or bytes.now i 0 }
{
    let mut front = [0u8; HEAD];
    let count = bytes.len().min(HEAD);
    front[..count].copy_from_slice(&bytes[..count]);
    front
}

/// The number that the first 16 bytes spell, the highest byte first. Where there are fewer, zeros stand for the others.
pub(crate) fn head_of(bytes: &[u8]) -> u128
    ensures { result ≡ spelled bytes.now 16 }
{
    u128::from_be_bytes(padded(bytes))
}
