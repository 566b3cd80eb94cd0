//! The order of two lists of bytes, eight bytes a step: a look-up does little else, and the `cmp` of
//! slices goes byte by byte.
ghost use Rattle.std.specs.Prelude.{◌≡◌};
ghost use Rattle.std.specs.Ordering.{nat_cmp};
ghost use Rattle.std.specs.Cmp.Lexicographic.{slice_cmp};

use std::cmp::Ordering;

/// How the lists compare, as `cmp` would tell: so encodings in memory are put in order. Eight bytes compare
/// as the numbers that they spell with the highest byte first.
pub fn order(own: &[u8], other: &[u8]) -> Ordering
    ensures { result ≡ slice_cmp nat_cmp own.now other.now }
{
    let mut left = own;
    let mut right = other;
    for _step in 0..own.len() / 8 {
        let Some((front, left_rest)) = left.split_first_chunk::<8>() else {
            break;
        };
        let Some((other_front, right_rest)) = right.split_first_chunk::<8>() else {
            break;
        };
        let x = u64::from_be_bytes(*front);
        let y = u64::from_be_bytes(*other_front);
        if x != y {
            return x.cmp(&y);
        }
        left = left_rest;
        right = right_rest;
    }
    if left.is_empty() && right.is_empty() {
        return Ordering::Equal;
    }
    left.cmp(right)
}
