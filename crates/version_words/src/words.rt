//! The row of words that all threads share: a word for each bucket, the counter of names and the counter of passes.
//!
//! # Three functions touch it
//!
//! `look_at` loads a word, `look_to_write` does so by an exchange that changes nothing, and `step` exchanges one if it is
//! still what it was. A step that succeeds is one event of the row's log; nothing else changes a word. Every public call
//! stands over these three, and none tries a step again.
//!
//! # The log
//!
//! The log exists in proofs alone. What a thread knows of it is a beginning that it has seen, which its pass and its marks
//! carry in their types and which takes no bytes. Of any two beginnings one begins the other.
ghost use Rattle.std.specs.Prelude.{◌≡◌, ◌≢◌, ◌+◌, ◌<◌, MatchBool};
ghost use mathlib.Core.List.{IsPrefix};
ghost use Rattle.crossbeam_utils.specs.Padded.{padded_value};
ghost use Rattle.table_core.specs.Lawful.{IsLawful};
ghost use Rattle.version_words.specs.Boards.{LiesAt, board_at, after};
ghost use Rattle.version_words.specs.Tallies.{Fair, Counts, on_pass, on_name};
ghost use Rattle.version_words.specs.Rows.{AreWords, AreSizes, AreWithin, word_at, value_of, CanAdd, IsAdded};

use crate::entry::{Answer, Entry};
use crate::mark::Mark;
use crate::naming::Naming;
use crate::rule::{Add, Law, Look};
use crate::sizes::Sizes;
use crate::tally::{Asks, Tally, Traded, offer, take_back};
use crossbeam_utils::CachePadded;
use far_object::FarObject;
use logbook::Word;

mod all_passes;
mod installation;
mod naming;
mod opening;
mod passes;
mod steps;

pub use installation::Installed;
pub use opening::Opened;

type RowWord<K, V> = Word<Entry<K, V>, Answer<Entry<K, V>>, Law<K, V>>;

/// The words of a row. Every call takes `&self`, and threads share it.
///
/// The words of the buckets lie side by side; each counter lies alone on its cache lines.
#[derive(Drop)]
pub struct Words<K: FarObject, V: FarObject, J: Naming> {
    sizes: Sizes,
    buckets: Vec<RowWord<K, V>>,
    names: CachePadded<RowWord<K, V>>,
    passes: CachePadded<RowWord<K, V>>,
    start: Mark<K, V, J>,
    ghost buckets_are: { AreWords J.book J.limits.buckets buckets.items },
    ghost names_is: { padded_value names ≡ word_at J.book J.limits.buckets },
    ghost passes_is: { padded_value passes ≡ word_at J.book (J.limits.buckets + 1) },
    ghost sizes_are: { AreSizes J.limits sizes },
    ghost within: { AreWithin J.limits },
}

impl<K: FarObject, V: FarObject, J: Naming> Words<K, V, J> {
    // The word k: those of the buckets, then the counter of names, then that of passes.
    fn word(&self, k: usize) -> &RowWord<K, V>
        requires there { k < J.limits.buckets + 2 }
        ensures { result.now ≡ word_at J.book k }
    {
        let count = self.buckets.len();
        if k < count {
            return &self.buckets[k];
        }
        if k == count {
            return &self.names;
        }
        &self.passes
    }

    // What the word k holds, at the log that is then seen.
    fn look_at(&self, k: usize, mark: &mut Mark<K, V, J>, pass: &mut Tally, name: &mut Tally) -> u64
        requires there { k < J.limits.buckets + 2 }
        requires tallies { LiesAt (board_at J.names 0) pass.old.board pass.old.slot × LiesAt (board_at J.names 1) name.old.board name.old.slot }
        ensures grows { IsPrefix mark.old mark.new }
        ensures lawful { IsLawful K.enc V.enc J.limits mark.new }
        ensures value { result ≡ value_of K.enc V.enc J.limits mark.new k }
        ensures boards { (pass.new.board ≡ board_at J.names 0) × (name.new.board ≡ board_at J.names 1) }
        ensures slots { (pass.new.slot ≡ pass.old.slot) × (name.new.slot ≡ name.old.slot) }
        ensures counts { Counts mark.new pass.new.slot name.new.slot }
    {
        let word = self.word(k);
        let mut offer = offer::<K, V, u32, steps::Entering>(&mark.seen, pass, name, &0);
        let found = word.load::<Look<K, V>, Traded<K, V>>(&mut mark.seen, &mut offer);
        take_back(offer.into_gain(), pass, name);
        found
    }

    // The same by an exchange of zero for zero, which changes nothing either: the processor then holds the word's cache line
    // to write it, so that a step which follows is less often too late.
    fn look_to_write(
        &self,
        k: usize,
        mark: &mut Mark<K, V, J>,
        pass: &mut Tally,
        name: &mut Tally,
    ) -> u64
        requires there { k < J.limits.buckets + 2 }
        requires tallies { LiesAt (board_at J.names 0) pass.old.board pass.old.slot × LiesAt (board_at J.names 1) name.old.board name.old.slot }
        ensures grows { IsPrefix mark.old mark.new }
        ensures lawful { IsLawful K.enc V.enc J.limits mark.new }
        ensures value { result ≡ value_of K.enc V.enc J.limits mark.new k }
        ensures boards { (pass.new.board ≡ board_at J.names 0) × (name.new.board ≡ board_at J.names 1) }
        ensures slots { (pass.new.slot ≡ pass.old.slot) × (name.new.slot ≡ name.old.slot) }
        ensures counts { Counts mark.new pass.new.slot name.new.slot }
    {
        let word = self.word(k);
        let mut offer = offer::<K, V, u32, steps::Entering>(&mark.seen, pass, name, &0);
        let mut pen = mark.seen.no_pen();
        let found = word.compare_exchange::<Look<K, V>, Traded<K, V>>(
            0,
            0,
            &mut mark.seen,
            &mut offer,
            &mut pen,
        );
        take_back(offer.into_gain(), pass, name);
        found
    }

    // Whether the word k was the old one, and so is the new one. Then the event that is asked for was added behind all
    // that had been seen.
    fn step<Y, M: Asks<Y, K, V>>(
        &self,
        k: usize,
        old: u64,
        new: u64,
        asked: &Y,
        mark: &mut Mark<K, V, J>,
        pass: &mut Tally,
        name: &mut Tally,
    ) -> bool
        requires can { CanAdd K.enc V.enc J.limits mark.old k old new (M.ask asked.now) }
        requires fair { Fair (M.ask asked.now) pass.old.slot name.old.slot }
        requires tallies { LiesAt (board_at J.names 0) pass.old.board pass.old.slot × LiesAt (board_at J.names 1) name.old.board name.old.slot }
        ensures grows { IsPrefix mark.old mark.new }
        ensures lawful { IsLawful K.enc V.enc J.limits mark.new }
        ensures done { MatchBool result (IsAdded K.enc V.enc J.limits mark.old k old (M.ask asked.now) mark.new) (value_of K.enc V.enc J.limits mark.new k ≢ old) }
        ensures boards { (pass.new.board ≡ board_at J.names 0) × (name.new.board ≡ board_at J.names 1) }
        ensures slots { (pass.new.slot ≡ after (on_pass (M.ask asked.now)) result pass.old.slot) × (name.new.slot ≡ after (on_name (M.ask asked.now)) result name.old.slot) }
        ensures counts { Counts mark.new pass.new.slot name.new.slot }
    {
        let word = self.word(k);
        let mut offer = offer::<K, V, Y, M>(&mark.seen, pass, name, asked);
        let mut pen = mark.seen.no_pen();
        let found = word.compare_exchange::<Add<K, V>, Traded<K, V>>(
            old,
            new,
            &mut mark.seen,
            &mut offer,
            &mut pen,
        );
        take_back(offer.into_gain(), pass, name);
        found == old
    }

    /// How many buckets there are.
    pub fn buckets(&self) -> u32
        ensures count { result ≡ J.limits.buckets }
        ensures some { 0 < result }
    {
        self.sizes.buckets
    }
}
