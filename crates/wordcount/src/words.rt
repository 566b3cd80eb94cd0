//! What a word is: as many ASCII letters, digits and bytes above 127 as stand side by side.
ghost use Rattle.std.specs.Prelude.{◌≡◌, ◌≤◌, ◌<◌, IfSome, length, take, drop, All, not};
ghost use Rattle.wordcount.specs.Words.{is_of_word, BeginsWith, IsFirst};

/// Whether words have this byte.
pub fn is_of_word(byte: u8) -> bool
    ensures { result ≡ is_of_word byte }
{
    byte.is_ascii_alphanumeric() || byte > 127
}

/// How many bytes there are before the first that is of a word, or that is not.
fn count_before(text: &[u8], of_word: bool) -> usize
    ensures bound { result ≤ length text.now }
    ensures before { All (λ byte. is_of_word byte ≡ not of_word) (take result text.now) }
    ensures behind { BeginsWith of_word (drop result text.now) }
{
    let first = text.iter().position(|byte| is_of_word(*byte) == of_word);
    first.unwrap_or(text.len())
}

/// The first word, and what is behind it, or none where there is no word.
pub fn first_word(text: &[u8]) -> Option<(&[u8], &[u8])>
    ensures first { IsFirst text.now result }
    ensures shorter { IfSome result (λ parts. length parts.1.now < length text.now) }
{
    let (_, from) = text.split_at(count_before(text, true));
    let (word, behind) = from.split_at(count_before(from, false));
    if word.is_empty() {
        None
    } else {
        Some((word, behind))
    }
}
