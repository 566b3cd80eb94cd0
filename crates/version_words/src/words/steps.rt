//! Which event each step asks for.

use crate::change::{Change, Probe};
use crate::tally::Asks;
use far_object::{FarObject, Object};

/// Asks for the pass of this number.
pub struct Entering;

impl<K, V> Asks<u32, K, V> for Entering {
    ghost use Rattle.table_core.specs.declared.event.Event.TheVariants.{Enter};

    ghost ask = { λ number. Enter number };
}

/// A name for the contents of a bucket.
#[derive(Drop)]
pub struct Drawn<'a, K: FarObject, V: FarObject> {
    pub name: u64,
    pub bucket: u32,
    pub object: &'a Object<K, V>,
}

/// Asks for this name.
pub struct Drawing;

impl<'a, K: FarObject, V: FarObject> Asks<Drawn<'a, K, V>, K, V> for Drawing {
    ghost use Rattle.table_core.specs.declared.event.Event.TheVariants.{Named};

    ghost ask = { λ a. Named a.name a.bucket a.object.now };
}

/// A word for a bucket, with the change that it makes.
#[derive(Drop)]
pub struct Install<'a, K, V> {
    pub pass: u32,
    pub bucket: u32,
    pub word: u64,
    pub change: &'a Change<'a, K, V>,
}

/// Asks for this install.
pub struct Installing;

impl<'a, K, V> Asks<Install<'a, K, V>, K, V> for Installing {
    ghost use Rattle.version_words.specs.Views.{installing, operation_of};

    ghost ask = { λ a. installing a.pass a.bucket a.word (operation_of a.change.now) };
}

/// A call that leaves its bucket.
#[derive(Drop)]
pub struct Check<'a, K, V> {
    pub pass: u32,
    pub probe: &'a Probe<'a, K, V>,
}

/// Asks for this call.
pub struct Checking;

impl<'a, K, V> Asks<Check<'a, K, V>, K, V> for Checking {
    ghost use Rattle.std.specs.Prelude.{None};
    ghost use Rattle.table_core.specs.declared.event.Event.TheVariants.{Done};
    ghost use Rattle.version_words.specs.Views.{probed};

    ghost ask = { λ a. Done a.pass (probed a.probe.now) None };
}
