//! Passes: drawing one, looking, learning.
ghost use Rattle.std.specs.Prelude.{◌≡◌, ◌<◌, [], IfOk, IfErr};
ghost use mathlib.Core.List.{IsPrefix};
ghost use Rattle.table_core.specs.declared.event.Event.TheVariants.{Enter};
ghost use Rattle.table_core.specs.Logs.{word};
ghost use Rattle.table_core.specs.Lawful.{IsLawful};
ghost use Rattle.version_words.specs.Views.{EndsWith, Goes, WasSeen, calls};
ghost use Rattle.version_words.specs.Faults.{IsEnterFault};

use super::Words;
use super::steps::Entering;
use crate::fault::EnterFault;
use crate::mark::Mark;
use crate::naming::Naming;
use crate::pass::Pass;
use crate::tally::Tally;
use far_object::FarObject;

impl<K: FarObject, V: FarObject, J: Naming> Words<K, V, J> {
    /// Draws the next pass, which has made no call.
    ///
    /// `PassesSpent` is returned if the last pass was drawn, and `Moved` if another call of `enter` drew one between the
    /// look and the step of this one.
    pub fn enter(&self) -> Result<Pass<K, V, J>, EnterFault<K, V, J>>
        ensures lawful { IfOk result (λ p. IsLawful K.enc V.enc J.limits p.front) }
        ensures entered { IfOk result (λ p. EndsWith [] (Enter p.number) p.front) }
        ensures no_calls { IfOk result (λ p. calls p ≡ []) }
        ensures fault { IfErr result (λ e. IsEnterFault K.enc V.enc J.limits e) }
    {
        let mut mark = self.start.again();
        let mut tally = Tally::none();
        let mut none = Tally::none();
        let at = self.sizes.buckets as usize + 1;
        let drawn = self.look_at(at, &mut mark, &mut tally, &mut none);
        if drawn >= u64::from(self.sizes.passes) {
            return Err(EnterFault::PassesSpent(mark));
        }
        let number = drawn as u32 + 1;
        if !self.step::<u32, Entering>(
            at,
            drawn,
            drawn + 1,
            &number,
            &mut mark,
            &mut tally,
            &mut none,
        ) {
            return Err(EnterFault::Moved(mark));
        }
        Ok(Pass {
            number,
            mark,
            tally,
        })
    }

    /// The word of a bucket, at the pass's new front.
    pub fn look(&self, pass: &mut Pass<K, V, J>, b: u32) -> u64
        requires bucket { b < J.limits.buckets }
        ensures pass { Goes pass.old pass.new }
        ensures lawful { IsLawful K.enc V.enc J.limits pass.new.front }
        ensures word { result ≡ word K.enc J.limits.buckets pass.new.front b }
        ensures seen { WasSeen K.enc J.limits.buckets pass.new.front b result }
    {
        let mut none = Tally::none();
        self.look_at(b as usize, &mut pass.mark, &mut pass.tally, &mut none)
    }

    /// Afterwards the pass has seen what the mark has.
    pub fn learn(&self, pass: &mut Pass<K, V, J>, mark: &Mark<K, V, J>)
        ensures pass { Goes pass.old pass.new }
        ensures lawful { IsLawful K.enc V.enc J.limits pass.new.front }
        ensures told { IsPrefix mark.now pass.new.front }
    {
        pass.mark.learn(mark);
        let mut none = Tally::none();
        let _ = self.look_at(0, &mut pass.mark, &mut pass.tally, &mut none);
    }
}
