//! Names for new contents.
ghost use Rattle.std.specs.Prelude.{◌≡◌, ◌<◌, ℕ, IsTrue, IfOk, IfErr};
ghost use Rattle.table_core.specs.declared.event.Event.TheVariants.{Named};
ghost use Rattle.table_core.specs.BucketWords.{name_of};
ghost use Rattle.table_core.specs.Logs.{contents};
ghost use Rattle.table_core.specs.Lawful.{IsLawful};
ghost use Rattle.version_words.specs.Views.{EndsWith, Goes, WasSeen, AreOfBucket, IsName};
ghost use Rattle.version_words.specs.Faults.{IsNameFault};

use super::Words;
use super::steps::{Drawing, Drawn};
use crate::fault::NameFault;
use crate::name::Name;
use crate::naming::Naming;
use crate::pass::Pass;
use crate::tally::Tally;
use far_object::{FarObject, Object};

impl<K: FarObject, V: FarObject, J: Naming> Words<K, V, J> {
    /// Draws the next name for these contents of the bucket, with the right to install it once. It is above the name of
    /// every word that was seen in the bucket.
    ///
    /// `NamesSpent` comes where the last name was drawn, `Moved` where another one was drawn between the look and the
    /// step; of the latter the clause says that the pass had not seen some name of its new front, and that this call
    /// drew none. A name that is drawn in vain stays drawn.
    pub fn name(
        &self,
        pass: &mut Pass<K, V, J>,
        b: u32,
        object: &Object<K, V>,
    ) -> Result<Name<K, V, J>, NameFault>
        requires bucket { b < J.limits.buckets }
        requires keys { IsTrue J.limits.honest → AreOfBucket K.enc J.limits.buckets b object.now }
        ensures pass { Goes pass.old pass.new }
        ensures lawful { IsLawful K.enc V.enc J.limits pass.new.front }
        ensures name { IfOk result (λ n. (n.bucket ≡ b) × (n.front ≡ pass.new.front)) }
        ensures contents { IfOk result (λ n. contents n.front n.number ≡ object.now) }
        ensures drawn { IfOk result (λ n. EndsWith pass.old.front (Named n.number b object.now) n.front) }
        ensures newer { IfOk result (λ n. (w : ℕ) → WasSeen K.enc J.limits.buckets pass.old.front b w → name_of w < n.number) }
        ensures named { IfOk result (λ n. IsName K.enc V.enc J.limits n) }
        ensures fault { IfErr result (λ e. IsNameFault J.limits pass.old.front pass.new.front e) }
    {
        // A law of the object: its pairs are in rising order.
        let _ = object.as_bytes();
        let at = self.sizes.buckets as usize;
        let mut right = Tally::none();
        let drawn = self.look_to_write(at, &mut pass.mark, &mut pass.tally, &mut right);
        if drawn >= self.sizes.names {
            return Err(NameFault::NamesSpent);
        }
        let number = drawn + 1;
        let asked = Drawn {
            name: number,
            bucket: b,
            object,
        };
        if !self.step::<Drawn<K, V>, Drawing>(
            at,
            drawn,
            number,
            &asked,
            &mut pass.mark,
            &mut pass.tally,
            &mut right,
        ) {
            return Err(NameFault::Moved);
        }
        Ok(Name {
            number,
            bucket: b,
            mark: pass.mark.again(),
            right,
        })
    }
}
