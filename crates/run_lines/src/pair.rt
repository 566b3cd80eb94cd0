//! A pair of the contents, which may be lent.
ghost use Rattle.std.specs.Prelude.{◌≡◌, ℕ, List, drop};

use far_object::Text;
use far_pairs::LentPair;

/// A key and its value: owned, or lent, as a table of one thread lends them, or lent as they are written, as the end of a
/// shared table does.
pub trait Pair {
    ghost texts_of: { Self → List ℕ × List ℕ };

    /// The key's text.
    fn key(&self) -> &[u8]
        ensures { result.now ≡ (texts_of self.now).0 };

    /// The value's text.
    fn value(&self) -> &[u8]
        ensures { result.now ≡ (texts_of self.now).1 };
}

impl Pair for (Text, Text) {
    ghost texts_of = { λ pair. pair };

    fn key(&self) -> &[u8] {
        self.0.as_bytes()
    }

    fn value(&self) -> &[u8] {
        self.1.as_bytes()
    }
}

impl Pair for &(Text, Text) {
    ghost texts_of = { λ pair. pair.now };

    fn key(&self) -> &[u8] {
        let pair: &(Text, Text) = *self;
        pair.0.as_bytes()
    }

    fn value(&self) -> &[u8] {
        let pair: &(Text, Text) = *self;
        pair.1.as_bytes()
    }
}

// What stands behind the two bytes of a text's length.
fn text_of(encoding: &[u8]) -> &[u8]
    ensures { result.now ≡ drop 2 encoding.now }
{
    match encoding.split_first_chunk::<2>() {
        Some((_, text)) => text,
        None => &[],
    }
}

impl Pair for LentPair<'_> {
    ghost texts_of = { λ pair. (drop 2 pair.0, drop 2 pair.1) };

    fn key(&self) -> &[u8] {
        text_of(LentPair::key(self))
    }

    fn value(&self) -> &[u8] {
        text_of(LentPair::value(self))
    }
}
