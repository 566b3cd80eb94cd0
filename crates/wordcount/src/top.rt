//! The first words in the order in which they are printed, of all that the map hands over as it ends: no others lie in memory.
ghost use Rattle.std.specs.BinaryHeap.{IsHeap, heap_items};
ghost use Rattle.std.specs.List.Sorted.{IsPermutation, IsSorted};
ghost use Rattle.std.proofs.Props.{props};
ghost use Rattle.std.specs.Prelude.{◌≡◌, ◌∷◌, [], OnOk};
ghost use Rattle.wordcount.specs.Tops.{print_cmp, words_in, GoesOn};
ghost use Rattle.wordcount.specs.Counts.{count_of};

use crate::counts::count_of;
use far_map::{Stopped, TakesPairs, Text};
use std::alloc::{AllocError, Global};
use std::cmp::Reverse;
use std::collections::BinaryHeap;

/// A word with its count, in the order of printing: the greater count first, and of equal ones the lesser word.
pub type Counted = (Reverse<u64>, Vec<u8>);

/// Takes words with their counts, and keeps the first `most`.
#[derive(Drop)]
pub struct Top {
    alloc: Global,
    most: usize,
    distinct: u64,
    /// The last of them lies on top.
    kept: BinaryHeap<Counted>,
    ghost ordered: { IsHeap (λ one other. print_cmp (one.0.0, one.1.items) (other.0.0, other.1.items)) (heap_items kept) } by { Prim.hlevel props },
}

impl Top {
    pub fn new(alloc: Global, most: usize) -> Top
        ensures most { result.most ≡ most }
        ensures none { words_in result.kept ≡ [] }
    {
        Top {
            alloc,
            most,
            distinct: 0,
            kept: BinaryHeap::new(alloc),
        }
    }

    /// How many words were taken.
    pub fn distinct(&self) -> u64 {
        self.distinct
    }

    /// The first words, in order.
    pub fn into_first(self) -> Vec<Counted>
        ensures same { IsPermutation (heap_items self.kept) result.items }
        ensures sorted { IsSorted (λ one other. print_cmp (one.0.0, one.1.items) (other.0.0, other.1.items)) result.items }
    {
        self.kept.into_sorted_vec()
    }

    /// Takes a word. Where there are too many then, the last goes.
    fn take_word(&mut self, word: &Text, count: &Text) -> Result<(), AllocError>
        ensures most { self.new.most ≡ self.old.most }
        ensures first { OnOk result (GoesOn self.old.most (words_in self.old.kept) ((count_of count.now, word.now) ∷ []) (words_in self.new.kept)) }
    {
        let word = Vec::from_slice(self.alloc, word.as_bytes())?;
        self.kept.push((Reverse(count_of(count)), word))?;
        self.distinct = self.distinct.saturating_add(1);
        if self.kept.len() > self.most {
            self.kept.pop();
        }
        Ok(())
    }
}

impl TakesPairs<Text, Text> for Top {
    ghost use Rattle.std.specs.Prelude.{MatchResult, ⊤};
    ghost use Rattle.wordcount.specs.Taking.{Takes, taken_none, taken_both};

    ghost takes = { λ old pairs new. Takes old.most old.kept pairs new.most new.kept };

    ghost takes_none = { λ x. taken_none x.most x.kept };

    ghost takes_both = { λ x y z first last one other. taken_both x.most y.most z.most x.kept y.kept z.kept first last one other };

    fn take(&mut self, pairs: Vec<(Text, Text)>) -> Result<(), Stopped>
        ensures { MatchResult result (λ _. Takes self.old.most self.old.kept pairs.items self.new.most self.new.kept) (λ _. ⊤) }
    {
        for (word, count) in pairs {
            match self.take_word(&word, &count) {
                Ok(()) => {}
                Err(_) => return Err(Stopped),
            }
        }
        Ok(())
    }
}
