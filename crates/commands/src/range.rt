//! Parts of a value by places that may count from its end.
ghost use Rattle.std.specs.Prelude.{◌≡◌};
ghost use Rattle.commands.specs.Ranges.{place, IsRange};

/// The bytes from one place up to another, which is behind the last of them.
#[derive(Clone, Copy)]
pub struct Range {
    pub from: usize,
    pub to: usize,
}

/// The place that a number counts to in so many bytes: below zero from their end, and before their beginning it is 0.
fn place_of(at: i64, len: usize) -> usize
    ensures { result ≡ place at len }
{
    let size = at.unsigned_abs() as usize;
    if at < 0 {
        len.saturating_sub(size)
    } else {
        size
    }
}

/// The part of so many bytes from `first` to `last`, with both, as GETRANGE counts them: -1 is the last byte. So a range
/// that ends before the beginning has the first byte, unless it also begins behind its end.
pub fn range_of(first: i64, last: i64, len: usize) -> Range
    ensures { IsRange first last len result }
{
    let from = place_of(first, len);
    let to = place_of(last, len);
    if first < 0 && last < 0 && last < first || to < from || len <= from {
        return Range { from: 0, to: 0 };
    }
    Range {
        from,
        to: to.min(len - 1) + 1,
    }
}
