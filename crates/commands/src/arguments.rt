//! The arguments of a request, lent from its bytes.
ghost use Rattle.std.specs.Prelude.{◌≡◌, ◌≢◌, ◌≤◌, ◌↔◌, [], ◌∷◌, length, drop, slice_get, IsTrue, MatchOption};
ghost use Rattle.resp.specs.Parsing.{argument_in};
ghost use Rattle.commands.specs.Arguments.{listed};

use resp::Span;

/// Byte strings that lie in a buffer at these places, in this order. Of a place that reaches behind the buffer's end, the
/// argument is what the buffer has there.
#[derive(Clone, Copy)]
pub struct Arguments<'a> {
    pub bytes: &'a [u8],
    pub spans: &'a [Span],
}

fn part(bytes: &[u8], span: Span) -> &[u8]
    ensures { result.now ≡ argument_in bytes.now span }
{
    let behind = &bytes[span.from.min(bytes.len())..];
    &behind[..span.len.min(behind.len())]
}

impl<'a> Arguments<'a> {
    pub fn len(&self) -> usize
        ensures { result ≡ length (listed self.now) }
    {
        self.spans.len()
    }

    pub fn is_empty(&self) -> bool
        ensures { IsTrue result ↔ (length (listed self.now) ≡ 0) }
    {
        self.spans.is_empty()
    }

    /// The argument at this place, the first at 0.
    pub fn get(self, index: usize) -> Option<&'a [u8]>
        ensures { MatchOption result (length (listed self.entry) ≤ index) (λ argument. slice_get (listed self.entry) index ≡ Some argument.now) }
    {
        let span = *self.spans.get(index)?;
        Some(part(self.bytes, span))
    }

    /// The first argument, and those behind it.
    pub fn split_first(self) -> Option<(&'a [u8], Arguments<'a>)>
        ensures { MatchOption result (listed self.entry ≡ []) (λ parts. listed self.entry ≡ parts.0.now ∷ listed parts.1) }
    {
        let (first, spans) = self.spans.split_first()?;
        Some((
            part(self.bytes, *first),
            Arguments {
                bytes: self.bytes,
                spans,
            },
        ))
    }

    /// The one argument, where there is just one.
    pub(crate) fn one(self) -> Option<&'a [u8]>
        ensures { MatchOption result (length (listed self.entry) ≢ 1) (λ a. listed self.entry ≡ a.now ∷ []) }
    {
        let (first, rest) = self.split_first()?;
        if rest.spans.is_empty() {
            Some(first)
        } else {
            None
        }
    }

    pub(crate) fn two(self) -> Option<(&'a [u8], &'a [u8])>
        ensures { MatchOption result (length (listed self.entry) ≢ 2) (λ a. listed self.entry ≡ a.0.now ∷ a.1.now ∷ []) }
    {
        let (first, rest) = self.split_first()?;
        let second = rest.one()?;
        Some((first, second))
    }

    pub(crate) fn three(self) -> Option<(&'a [u8], &'a [u8], &'a [u8])>
        ensures { MatchOption result (length (listed self.entry) ≢ 3) (λ a. listed self.entry ≡ a.0.now ∷ a.1.now ∷ a.2.now ∷ []) }
    {
        let (first, rest) = self.split_first()?;
        let (second, third) = rest.two()?;
        Some((first, second, third))
    }
}
