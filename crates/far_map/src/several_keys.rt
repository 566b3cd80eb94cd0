//! Gets of several keys, whose waits for memory overlap.
ghost use Rattle.std.specs.Prelude.{◌≡◌, IfErr};
ghost use Rattle.version_words.specs.Views.{Goes};
ghost use Rattle.far_map.specs.Many.{IsGotEach};
ghost use Rattle.far_map.specs.Refusals.{IsUnread};

use crate::refusal::MapRefusal;
use crate::session::Session;
use crate::values::Value;
use far_device::Device;
use far_object::Text;
use hash_table::MOST_PREFETCHED;
use std::sync::Wait;
use swapper::QueueNaming;
use version_words::Naming;

impl<'m, V: Value, J: Naming, B: QueueNaming, D: Device> Session<'m, V, J, B, D> {
    /// Begins to load what calls with the first of these keys are going to read.
    pub(crate) fn bring_near(&mut self, keys: &[Text])
        ensures goes { Goes self.old.pass self.new.pass }
        ensures same { (self.new.limit ≡ self.old.limit) × (self.new.stats ≡ self.old.stats) }
    {
        let table = &self.map.table;
        table.prefetch(&mut self.session_state.caller, keys);
    }

    // Does so after each group of calls that were prefetched together. `made` is how many were made.
    fn bring_next(&mut self, keys: &[Text], made: usize)
        ensures goes { Goes self.old.pass self.new.pass }
        ensures same { (self.new.limit ≡ self.old.limit) × (self.new.stats ≡ self.old.stats) }
    {
        if made % MOST_PREFETCHED == 0 {
            self.bring_near(keys);
        }
    }

    /// Returns the values of the keys, each copied by a get of its own.
    pub(crate) fn copy_many<R: Wait>(
        &mut self,
        rt: &R,
        keys: &[Text],
    ) -> Result<Vec<Option<V>>, MapRefusal>
        ensures got { IsGotEach V.enc J.limits keys.now self.old self.new result }
        ensures unread { IfErr result (IsUnread J.limits.honest) }
    {
        let Ok(mut answers) = Vec::with_capacity(self.alloc, keys.len()) else {
            return Err(MapRefusal::Memory);
        };
        let mut rest = keys;
        while let Some((key, behind)) = rest.split_first() {
            self.bring_next(rest, answers.len());
            match self.copy(rt, key) {
                Ok(answer) => match answers.push(answer) {
                    Ok(()) => {}
                    Err(_) => unreachable!(),
                },
                Err(refusal) => return Err(refusal),
            }
            rest = behind;
        }
        Ok(answers)
    }
}
