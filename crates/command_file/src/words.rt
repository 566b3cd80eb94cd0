//! The words of a line, with exactly one space between.
ghost use Rattle.std.specs.Prelude.{◌≡◌, ℕ, ◌+◌, ◌<◌, ◌↔◌, [], ◌∷◌, All, IsTrue, IfSome, length, MatchOption};
ghost use Rattle.command_file.specs.Grammar.{IsWord, IsWordByte};
ghost use Rattle.command_file.specs.Words.{words_in, AreWords};

use crate::search::first_place;

/// The most bytes of a word.
const LONGEST_WORD: usize = 255;

/// The bytes before the first space, and those behind it.
pub(crate) fn split_once(bytes: &[u8]) -> Option<(&[u8], &[u8])>
    ensures parts { MatchOption result (words_in bytes.now ≡ bytes.now ∷ []) (λ parts. words_in bytes.now ≡ parts.0.now ∷ words_in parts.1.now) }
    ensures shorter { IfSome result (λ parts. length parts.1.now < length bytes.now) }
{
    let at = first_place(b' ', bytes)?;
    Some((&bytes[..at], &bytes[at + 1..]))
}

// Each byte is looked at, also behind one that fails, so that the processor may look at many in one step.
fn are_graphic(bytes: &[u8]) -> bool
    ensures { IsTrue result ↔ All IsWordByte bytes.now }
{
    let mut all = true;
    for byte in bytes {
        all &= byte.is_ascii_graphic();
    }
    all
}

fn is_word(bytes: &[u8]) -> bool
    ensures { IsTrue result ↔ IsWord bytes.now }
{
    !bytes.is_empty() && bytes.len() <= LONGEST_WORD && are_graphic(bytes)
}

/// The first word of two or more, and what stands behind its space.
fn next_word(bytes: &[u8]) -> Option<(&[u8], &[u8])>
    ensures { MatchOption result ((more : ℕ) → ¬ (AreWords (more + 2) (words_in bytes.now)))
        (λ parts. (words_in bytes.now ≡ parts.0.now ∷ words_in parts.1.now) × IsWord parts.0.now) }
{
    let (first, rest) = split_once(bytes)?;
    if is_word(first) {
        Some((first, rest))
    } else {
        None
    }
}

pub(crate) fn one_word(bytes: &[u8]) -> Option<&[u8]>
    ensures { MatchOption result (¬ (AreWords 1 (words_in bytes.now)))
        (λ word. (words_in bytes.now ≡ word.now ∷ []) × IsWord word.now) }
{
    if is_word(bytes) { Some(bytes) } else { None }
}

pub(crate) fn two_words(bytes: &[u8]) -> Option<(&[u8], &[u8])>
    ensures { MatchOption result (¬ (AreWords 2 (words_in bytes.now)))
        (λ words. (words_in bytes.now ≡ words.0.now ∷ words.1.now ∷ []) × IsWord words.0.now × IsWord words.1.now) }
{
    let (first, rest) = next_word(bytes)?;
    let second = one_word(rest)?;
    Some((first, second))
}

pub(crate) fn three_words(bytes: &[u8]) -> Option<(&[u8], &[u8], &[u8])>
    ensures { MatchOption result (¬ (AreWords 3 (words_in bytes.now)))
        (λ words. (words_in bytes.now ≡ words.0.now ∷ words.1.now ∷ words.2.now ∷ [])
        × IsWord words.0.now × IsWord words.1.now × IsWord words.2.now) }
{
    let (first, rest) = next_word(bytes)?;
    let (second, third) = two_words(rest)?;
    Some((first, second, third))
}
