//! Counts, as the map has them: eight bytes, the highest first.
ghost use Rattle.std.specs.Prelude.{◌≡◌, ◌+◌, ◌-◌, ◌^◌, min, IfSome};
ghost use Rattle.table_core.specs.Lent.{lent_value};
ghost use Rattle.wordcount.specs.Counts.{count_of, count_found};

use far_object::Text;
use std::alloc::Global;

/// The count that a value writes.
pub fn count_of(value: &Text) -> u64
    ensures { result ≡ count_of value.now }
{
    match value.as_bytes().first_chunk::<8>() {
        Some(bytes) => u64::from_be_bytes(*bytes),
        None => 0,
    }
}

/// The value that writes one more, at most 2^64 - 1; none where memory is refused.
pub fn raised(alloc: Global, found: Option<&Text>) -> Option<Text>
    ensures { IfSome result (λ made. count_of made ≡ min (count_found (lent_value found.entry) + 1) (2 ^ 64 - 1)) }
{
    let count = match found {
        Some(value) => count_of(value),
        None => 0,
    };
    Text::new(alloc, &count.saturating_add(1).to_be_bytes()).ok()
}
