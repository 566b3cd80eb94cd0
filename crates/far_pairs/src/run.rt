//! Pairs that are in key order, and lent.
ghost use Rattle.std.specs.Prelude.{◌≡◌, ◌<◌, ◌++◌, OnOk};
ghost use Rattle.far_pairs.specs.Ranges.{is_before, AreCut, AreRising};

use crate::lent_pair::LentPair;
use far_object::{Memory, compare_bytes};
use std::marker::Model;

/// Lent pairs in the order of their keys, side by side in memory. Contracts see the list of them.
#[derive(Drop)]
pub(crate) struct Run<'b, 'a> {
    pairs: &'b [LentPair<'a>],
}

impl<'b, 'a> Model for Run<'b, 'a> {
    ghost use Rattle.std.specs.Prelude.{ℕ, List};
    ghost use Rattle.far_pairs.specs.Ranges.{AreRising};

    ghost Value = { List (List ℕ × List ℕ) };

    ghost view = { λ r. r.pairs.now };

    ghost invariant = { λ r. AreRising r.pairs.now };
}

impl<'b, 'a> Run<'b, 'a> {
    pub(crate) fn new(pairs: &'b [LentPair<'a>]) -> Run<'b, 'a>
        requires { AreRising pairs.now }
        ensures { result ≡ pairs.now }
    {
        Run { pairs }
    }

    pub(crate) fn len(&self) -> usize {
        self.pairs.len()
    }

    /// The key behind the first of so many parts of one length, where there is a pair.
    pub(crate) fn key_behind_part(&self, parts: usize) -> Option<&'a [u8]>
        requires { 0 < parts }
    {
        match self.pairs.get(self.pairs.len() / parts) {
            Some(pair) => Some(pair.key()),
            None => None,
        }
    }

    /// Those whose keys come before this one, and the others.
    pub(crate) fn cut(&self, key: &[u8]) -> (Run<'b, 'a>, Run<'b, 'a>)
        ensures { AreCut key.now self.now result.0 result.1 }
    {
        let place = self.pairs.partition_point(
            |pair: &LentPair<'_>| -> bool
                ensures { result ≡ is_before key.entry.now pair.now }
            { compare_bytes(pair.key(), key).is_lt() },
        );
        let (before, behind) = self.pairs.split_at(place);
        (Run { pairs: before }, Run { pairs: behind })
    }

    /// Lends them once more, behind others. After `Memory` some of them may stand there.
    pub(crate) fn lend(&self, lent: &mut Vec<LentPair<'a>>) -> Result<(), Memory>
        ensures { OnOk result (lent.new.items ≡ lent.old.items ++ self.now) }
    {
        lent.reserve(self.pairs.len())?;
        for pair in self.pairs {
            lent.push(pair.again())?;
        }
        Ok(())
    }
}
