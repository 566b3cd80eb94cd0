//! Sizes on the command line, such as `64k`.

/// The letters that may follow a number, and the bytes that each means.
const UNITS: [(u8, u64); 3] = [(b'k', 1 << 10), (b'm', 1 << 20), (b'g', 1 << 30)];

/// Splits a size into its digits and the bytes of its unit, 1 if it has none.
fn split(text: &[u8]) -> (&[u8], u64) {
    if let Some((last, digits)) = text.split_last() {
        for (letter, unit) in UNITS {
            if last.to_ascii_lowercase() == letter {
                return (digits, unit);
            }
        }
    }
    (text, 1)
}

/// The number that the decimal digits spell. None if they spell none below 2^64.
fn number(digits: &[u8]) -> Option<u64> {
    if digits.is_empty() {
        return None;
    }
    let mut all: u64 = 0;
    for digit in digits {
        if !digit.is_ascii_digit() {
            return None;
        }
        let one = u64::from(digit.saturating_sub(b'0'));
        all = all.checked_mul(10)?.checked_add(one)?;
    }
    Some(all)
}

/// The bytes that a text such as `64k`, `256m`, `2g` or `1000` means. None if it means no number below 2^64.
pub fn bytes_of(text: &str) -> Option<u64> {
    let (digits, unit) = split(text.as_bytes());
    number(digits)?.checked_mul(unit)
}
