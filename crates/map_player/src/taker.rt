//! What takes the pairs of a map that hands them over as it ends.

use far_map::{Stopped, TakesPairs, Text};
use std::alloc::Global;

/// Takes the pairs of so many buckets, and no more.
#[derive(Drop)]
pub struct Taker {
    pub pairs: Vec<(Text, Text)>,
    left: u32,
}

impl Taker {
    pub fn new(alloc: Global, left: u32) -> Taker {
        Taker {
            pairs: Vec::new(alloc),
            left,
        }
    }
}

impl TakesPairs<Text, Text> for Taker {
    ghost use Rattle.std.specs.Prelude.{◌≡◌, ◌++◌, ⊤, MatchResult};
    ghost use Rattle.std.proofs.Common.{ap, sym, ◌∙◌};
    ghost use Rattle.std.proofs.lemmas.List.{append-nil, append_assoc};

    ghost takes = { λ old pairs new. new.pairs.items ≡ old.pairs.items ++ pairs };

    ghost takes_none = { λ x. sym (append-nil x.pairs.items) };

    ghost takes_both = { λ x y z first last one other. other ∙ (ap (λ items. items ++ last) one ∙ append_assoc x.pairs.items first last) };

    fn take(&mut self, mut pairs: Vec<(Text, Text)>) -> Result<(), Stopped>
        ensures { MatchResult result (λ _. self.new.pairs.items ≡ self.old.pairs.items ++ pairs.items) (λ _. ⊤) }
    {
        if self.left == 0 {
            return Err(Stopped);
        }
        self.left -= 1;
        match self.pairs.append(&mut pairs) {
            Ok(()) => Ok(()),
            Err(_) => Err(Stopped),
        }
    }
}
