//! A right to install that is given up for good, without a step. These are laws by hand, as those of `tally`.
ghost use Rattle.std.specs.Prelude.{◌≡◌, ◌<◌, ℕ};
ghost use Rattle.logbook.specs.Pages.{Book, book_coded};
ghost use Rattle.version_words.specs.Boards.{no_slot, board_at, total};
ghost use Rattle.version_words.specs.Tallies.{installs_in, events};

use crate::entry::{Answer, Entry};
use crate::rule::Law;
use crate::tally::Tally;
use far_object::FarObject;
use logbook::Seen;
use std::marker::{Model, PhantomData};

/// The name `key` + 1 is never installed in the book. It can be shared.
pub struct Shut {
    marker: PhantomData<()>,
    pub ghost book: { Book } by { book_coded },
    pub ghost board: { ℕ },
    pub ghost key: { ℕ },
}

impl Model for Shut {
    ghost use Rattle.version_words.specs.Shuts.{shut_owns};
    ghost use denote.Sharing.{said};

    ghost also_owns = { λ s. shut_owns s.book s.board s.key };

    ghost also_shares = { λ s _ κ. said (shut_owns s.book s.board s.key) κ };
}

impl Drop for Shut {
    fn drop(self) {
        let Self { marker: _ } = self;
    }
}

unsafe impl Send for Shut {}

unsafe impl Sync for Shut {}

impl Shut {
    /// Shuts the right for good.
    pub fn new<K: FarObject, V: FarObject>(
        seen: &Seen<Entry<K, V>, Answer<Entry<K, V>>, Law<K, V>>,
        right: &mut Tally,
    ) -> Shut
        requires { (0 < right.old.slot.held) × (right.old.slot.count ≡ 0) }
        ensures { (result.book ≡ seen.now.book) × (result.board ≡ right.old.board) × (result.key ≡ right.old.slot.key) × (right.new.slot ≡ no_slot) }
    {
        Shut {
            marker: PhantomData,
        }
    }

    /// No log of the book that was seen has the name installed.
    pub fn never<K: FarObject, V: FarObject>(
        &self,
        seen: &Seen<Entry<K, V>, Answer<Entry<K, V>>, Law<K, V>>,
    )
        requires { (self.now.book ≡ seen.now.book) × (self.now.board ≡ board_at seen.now.names 1) }
        ensures { total installs_in (events seen.now.log) self.now.key ≡ 0 }
    {}
}
