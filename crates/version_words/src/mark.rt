//! A beginning of the log that was seen.
ghost use Rattle.std.specs.Prelude.{◌≡◌, ◌⊎◌};
ghost use mathlib.Core.List.{IsPrefix};
ghost use Rattle.table_core.specs.Lawful.{IsLawful};

use crate::entry::{Answer, Entry};
use crate::naming::Naming;
use crate::rule::Law;
use far_object::FarObject;
use logbook::Seen;
use std::marker::{Model, PhantomData};

/// A beginning of the row's log that was seen. It can be copied and sent to other threads, and has no bytes. Contracts see
/// it as the list of its events.
#[derive(Drop)]
pub struct Mark<K: FarObject, V: FarObject, J: Naming> {
    pub(crate) seen: Seen<Entry<K, V>, Answer<Entry<K, V>>, Law<K, V>>,
    pub(crate) of: PhantomData<J>,
}

impl<K: FarObject, V: FarObject, J: Naming> Model for Mark<K, V, J> {
    ghost use Rattle.std.specs.Prelude.{◌≡◌, List};
    ghost use Rattle.table_core.specs.declared.event.Event.{Event};
    ghost use Rattle.version_words.specs.Rows.{IsLog};
    ghost use Rattle.version_words.specs.Tallies.{events};

    ghost Value = { List (Event K V) };

    ghost view = { λ m. events m.seen.log };

    ghost invariant = { λ m. (m.seen.book ≡ J.book) × (m.seen.names ≡ J.names) × IsLog K.enc V.enc J.limits m.seen.log };
}

impl<K: FarObject, V: FarObject, J: Naming> Mark<K, V, J> {
    /// A copy.
    pub fn again(&self) -> Mark<K, V, J>
        ensures same { result ≡ self.now }
        ensures lawful { IsLawful K.enc V.enc J.limits result }
    {
        Mark {
            seen: self.seen.again(),
            of: PhantomData,
        }
    }

    /// Afterwards this mark has seen what both had.
    pub fn learn(&mut self, other: &Mark<K, V, J>)
        ensures own { IsPrefix self.old self.new }
        ensures told { IsPrefix other.now self.new }
        ensures lawful { IsLawful K.enc V.enc J.limits self.new }
    {
        self.seen.learn(&other.seen);
    }

    /// A law, without a step: of two marks one begins the other.
    pub fn compare(&self, other: &Mark<K, V, J>)
        ensures { IsPrefix self.now other.now ⊎ IsPrefix other.now self.now }
    {
        let mut both = self.again();
        both.learn(other);
    }
}
