//! What holds a pass.
ghost use Rattle.std.specs.Prelude.{◌≡◌, ◌≢◌};
ghost use mathlib.Core.List.{IsPrefix};
ghost use Rattle.version_words.specs.Views.{Goes};

use crate::mark::Mark;
use crate::naming::Naming;
use crate::pass::Pass;
use crate::words::Words;
use far_object::FarObject;

/// A value that holds a pass, so that `Words::gather` takes a table's callers as they are. A pass holds itself.
///
/// An impl's ghost members say which part is the pass: `pass_of` reads it, and `with_pass` is the value with another pass
/// there and with all else as it was. Its methods call those of the pass.
pub trait PassHolder<K: FarObject, V: FarObject, J: Naming> {
    ghost use Rattle.version_words.specs.Views.{PassView};

    ghost pass_of: { Self → PassView K V };

    ghost with_pass: { Self → PassView K V → Self };

    /// The pass.
    fn pass(&self) -> &Pass<K, V, J>
        ensures { result.now ≡ pass_of self.now };

    /// `Words::learn` of the pass. What else the value holds stays.
    fn tell(&mut self, words: &Words<K, V, J>, mark: &Mark<K, V, J>)
        ensures pass { Goes (pass_of self.old) (pass_of self.new) }
        ensures told { IsPrefix mark.now (pass_of self.new).front }
        ensures rest { self.new ≡ with_pass self.old (pass_of self.new) };

    /// `Pass::differ` of the two passes.
    fn differs_from(&mut self, other: &mut Self)
        ensures { (pass_of self.old).number ≢ (pass_of other.old).number };

    ghost put_back: { (holder : Self) → with_pass holder (pass_of holder) ≡ holder };
}

impl<K: FarObject, V: FarObject, J: Naming> PassHolder<K, V, J> for Pass<K, V, J> {
    ghost use Rattle.std.specs.Prelude.{refl};

    ghost pass_of = { λ pass. pass };

    ghost with_pass = { λ _ pass. pass };

    ghost put_back = { λ _. refl };

    fn pass(&self) -> &Pass<K, V, J> {
        self
    }

    fn tell(&mut self, words: &Words<K, V, J>, mark: &Mark<K, V, J>) {
        words.learn(self, mark);
    }

    fn differs_from(&mut self, other: &mut Pass<K, V, J>) {
        self.differ(other);
    }
}
