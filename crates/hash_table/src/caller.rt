//! A caller of the table: an identity, and what its calls left.
ghost use Rattle.std.specs.Prelude.{◌≡◌, ◌≤◌, [], ◌∷◌, length, MatchOption, MatchResult};
ghost use Rattle.table_core.specs.Lawful.{IsLawful};
ghost use Rattle.hash_table.specs.Calls.{most_spares};

use crate::limbo::Limbo;
use crate::traffic::Traffic;
use far_object::{Buffers, FarObject};
use version_words::{Mark, Naming, Pass, PassHolder, Spare, Words};

/// A thread's handle for calls on a table. `FarTable::enter` returns it.
///
/// It holds:
///
/// - a pass: the caller's identity, with the count of its calls
/// - a limbo: the list of its spares, at most 64. A spare is a retired word, which a call of this caller
///   replaced or gave up.
/// - counts of what its calls did and, after `recycle`, a frame and memory for its next objects
///
/// Hand the spares to `FarTable::reclaim` or to an evictor: while 64 wait, changes are refused. A spare may
/// be dropped, but then the memory that it points to is not freed before the table ends.
///
/// Keep the caller until the table ends, because `FarTable::close` needs all callers. Contracts see the pass,
/// and the list of the spares from the oldest on.
#[derive(Drop)]
pub struct Caller<K: FarObject, V: FarObject, J: Naming> {
    pub(crate) pass: Pass<K, V, J>,
    pub(crate) limbo: Limbo<K, V, J>,
    // Memory of versions that it reclaimed while it recycles. Its changes build their objects there.
    pub(crate) buffers: Buffers,
}

impl<K: FarObject, V: FarObject, J: Naming> Caller<K, V, J> {
    /// A mark of what it has seen: evidence that other callers can learn by `FarTable::learn`.
    pub fn mark(&self) -> Mark<K, V, J>
        ensures front { result ≡ self.now.pass.front }
        ensures lawful { IsLawful K.enc V.enc J.limits result }
    {
        self.pass.mark()
    }

    /// How many spares wait, at most 64.
    pub fn limbo_len(&self) -> u32
        ensures is { result ≡ length self.now.limbo }
        ensures few { result ≤ most_spares }
    {
        self.limbo.len()
    }

    /// Counts of what its calls did since it entered. They are hints: no contract says anything about them.
    pub fn traffic(&self) -> Traffic {
        self.limbo.traffic()
    }

    /// Takes out the oldest spare. None if none waits.
    pub fn take_spare(&mut self) -> Option<Spare<K, V, J>>
        ensures limbo { MatchOption result ((self.old.limbo ≡ []) × (self.new.limbo ≡ [])) (λ s. self.old.limbo ≡ s ∷ self.new.limbo) }
        ensures pass { self.new.pass ≡ self.old.pass }
    {
        self.limbo.take()
    }

    /// Puts a spare back as the oldest. If 64 wait, the spare is returned as the error.
    pub fn return_spare(&mut self, spare: Spare<K, V, J>) -> Result<(), Spare<K, V, J>>
        ensures limbo { MatchResult result (λ _. self.new.limbo ≡ spare ∷ self.old.limbo)
            (λ s. (s ≡ spare) × (self.new.limbo ≡ self.old.limbo) × (length self.old.limbo ≡ most_spares)) }
        ensures pass { self.new.pass ≡ self.old.pass }
    {
        self.limbo.put_back(spare)
    }
}

impl<K: FarObject, V: FarObject, J: Naming> PassHolder<K, V, J> for Caller<K, V, J> {
    ghost use Rattle.std.specs.Prelude.{refl};

    ghost pass_of = { λ caller. caller.pass };

    ghost with_pass = { λ caller pass. record { pass = pass; limbo = caller.limbo; buffers = caller.buffers } };

    ghost put_back = { λ _. refl };

    fn pass(&self) -> &Pass<K, V, J> {
        &self.pass
    }

    fn tell(&mut self, words: &Words<K, V, J>, mark: &Mark<K, V, J>) {
        words.learn(&mut self.pass, mark);
    }

    fn differs_from(&mut self, other: &mut Caller<K, V, J>) {
        self.pass.differ(&mut other.pass);
    }
}
