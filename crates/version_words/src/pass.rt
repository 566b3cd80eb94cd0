//! The right to make calls.
ghost use Rattle.std.specs.Prelude.{◌≡◌, ◌≢◌, ◌<◌, ◌≤◌};
ghost use Rattle.table_core.specs.Logs.{passes_of};
ghost use Rattle.table_core.specs.Lawful.{IsLawful};

use crate::mark::Mark;
use crate::naming::Naming;
use crate::tally::{Tally, differ};
use far_object::FarObject;
use std::marker::Model;

/// The right to make calls under one number, which `Words::enter` draws. It holds the tally of its calls, so that the log
/// has no other call of this number than those which this value made. Contracts see its number and its front: the
/// beginning of the log that it has seen.
#[derive(Drop)]
pub struct Pass<K: FarObject, V: FarObject, J: Naming> {
    pub(crate) number: u32,
    pub(crate) mark: Mark<K, V, J>,
    pub(crate) tally: Tally,
}

impl<K: FarObject, V: FarObject, J: Naming> Model for Pass<K, V, J> {
    ghost use Rattle.version_words.specs.Views.{PassView, IsPass};

    ghost Value = { PassView K V };

    ghost view = { λ p. record { front = p.mark; number = p.number } };

    ghost invariant = { λ p. IsPass J.names p.mark p.number p.tally.board p.tally.slot };
}

impl<K: FarObject, V: FarObject, J: Naming> Pass<K, V, J> {
    /// The number, from 1.
    pub fn number(&self) -> u32
        ensures number { result ≡ self.now.number }
        ensures entered { (0 < result) × (result ≤ passes_of self.now.front) }
    {
        self.number
    }

    /// A mark of what it has seen.
    pub fn mark(&self) -> Mark<K, V, J>
        ensures front { result ≡ self.now.front }
        ensures lawful { IsLawful K.enc V.enc J.limits result }
        ensures entered { (0 < self.now.number) × (self.now.number ≤ passes_of self.now.front) }
    {
        self.mark.again()
    }

    /// A law, without a step: two passes have different numbers. Neither is changed.
    pub fn differ(&mut self, other: &mut Pass<K, V, J>)
        ensures numbers { self.old.number ≢ other.old.number }
        ensures same { (self.new ≡ self.old) × (other.new ≡ other.old) }
    {
        differ(&self.mark.seen, &mut self.tally, &mut other.tally);
    }
}
