//! Tallies, and how they are traded at a step. These are laws by hand: what a `Tally` owns is no Rust value, so the
//! prover is walked through the bodies in `proofs/tally`.
//!
//! Who holds the tally of a pass knows at each step how many calls of that pass the log has, and nobody else can add one.
//! The tally of a name at 0 is the right to install it, which an install spends for good.
ghost use Rattle.std.specs.Prelude.{◌≡◌, ◌≢◌, ◌<◌, ◌∷◌, [], ℕ, None};
ghost use Rattle.version_words.specs.Boards.{Slot, slot_coded, no_slot, LiesAt, board_at};
ghost use Rattle.version_words.specs.Tallies.{about_of, pass_after, name_after, Fair, Counts, events};
ghost use Rattle.version_words.specs.Rows.{fresh, limits_of};
ghost use Rattle.version_words.specs.declared.entry.Entry.TheVariants.{Happened};

use crate::entry::{Answer, Entry};
use crate::rule::Law;
use crate::sizes::{Honesty, Sizes};
use far_object::FarObject;
use logbook::{Gain, Gained, Offer, Seen, Start};
use std::marker::{Model, PhantomData};

/// The tally of a pass or of a name, or none. It has no bytes.
pub struct Tally {
    marker: PhantomData<()>,
    pub ghost board: { ℕ },
    pub ghost slot: { Slot } by { slot_coded },
}

impl Model for Tally {
    ghost use Rattle.version_words.specs.Boards.{slot_owns};

    ghost also_owns = { λ t. slot_owns t.board t.slot };
}

impl Drop for Tally {
    fn drop(self) {
        let Self { marker: _ } = self;
    }
}

unsafe impl Send for Tally {}

unsafe impl Sync for Tally {}

impl Tally {
    /// No tally.
    pub fn none() -> Tally
        ensures { result.slot ≡ no_slot }
    {
        Tally {
            marker: PhantomData,
        }
    }
}

/// What a caller has back after its step.
pub struct Traded<K, V> {
    of: PhantomData<(K, V)>,
}

impl<K, V> Gain<Entry<K, V>, Answer<Entry<K, V>>> for Traded<K, V> {
    ghost use Rattle.version_words.specs.Tallies.{traded};

    ghost after = { λ names about answer. traded names about answer };
}

/// Which event a value asks for.
pub trait Asks<Y, K, V> {
    ghost use Rattle.table_core.specs.declared.event.Event.{Event};

    ghost ask: { Y → Event K V };
}

/// The boards of a log that only says how the row was opened.
pub fn start<K: FarObject, V: FarObject, H: Honesty>(
    sizes: &Sizes,
) -> Start<Entry<K, V>, Answer<Entry<K, V>>, Law<K, V>>
    ensures { result.shown ≡ fresh (limits_of sizes.now H.honest) }
{
    Start {
        marker: PhantomData,
    }
}

/// Offers the tallies of a pass and of a name at the step that adds what is asked. They are out until `take_back`.
pub fn offer<K: FarObject, V: FarObject, Y, M: Asks<Y, K, V>>(
    seen: &Seen<Entry<K, V>, Answer<Entry<K, V>>, Law<K, V>>,
    pass: &mut Tally,
    name: &mut Tally,
    asked: &Y,
) -> Offer<Entry<K, V>, Answer<Entry<K, V>>, Law<K, V>, Traded<K, V>>
    requires { Fair (M.ask asked.now) pass.old.slot name.old.slot × LiesAt (board_at seen.now.names 0) pass.old.board pass.old.slot × LiesAt (board_at seen.now.names 1) name.old.board name.old.slot }
    ensures { (result.names ≡ seen.now.names) × (result.ask ≡ Happened (M.ask asked.now)) × (result.about ≡ about_of (M.ask asked.now) pass.old.slot name.old.slot) × (result.state ≡ None) × (pass.new.slot ≡ no_slot) × (name.new.slot ≡ no_slot) }
{
    Offer {
        marker: PhantomData,
    }
}

/// Takes the tallies back, as they are after the step.
pub fn take_back<K, V>(
    gained: Gained<Entry<K, V>, Answer<Entry<K, V>>, Traded<K, V>>,
    pass: &mut Tally,
    name: &mut Tally,
)
    ensures { (pass.new.board ≡ board_at gained.names 0) × (name.new.board ≡ board_at gained.names 1) × (pass.new.slot ≡ pass_after gained.about gained.answer.done) × (name.new.slot ≡ name_after gained.about gained.answer.done) × Counts (events gained.answer.log) pass.new.slot name.new.slot }
{
    let Gained { marker: _ } = gained;
}

/// Two tallies of passes are of different passes.
pub fn differ<K: FarObject, V: FarObject>(
    seen: &Seen<Entry<K, V>, Answer<Entry<K, V>>, Law<K, V>>,
    one: &mut Tally,
    other: &mut Tally,
)
    requires { (0 < one.old.slot.held) × (0 < other.old.slot.held) × (one.old.board ≡ board_at seen.now.names 0) × (other.old.board ≡ board_at seen.now.names 0) }
    ensures { (one.old.slot.key ≢ other.old.slot.key) × (one.new ≡ one.old) × (other.new ≡ other.old) }
{}
