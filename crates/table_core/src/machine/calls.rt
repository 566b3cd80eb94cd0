//! A call that may come next: its answer and its installation.
ghost use Rattle.std.specs.Prelude.{◌≡◌, ◌<◌, List, IfOk, IfErr, OnErr, OnOk};
ghost use Rattle.table_core.specs.declared.event.Event.{Event};
ghost use Rattle.table_core.specs.Maps.{value_at};
ghost use Rattle.std.specs.List.Sorted.{IsStrictlySortedBy};
ghost use Rattle.std.specs.Map.{keys_of};
ghost use Rattle.far_object.specs.Buckets.{key_cmp};
ghost use Rattle.table_core.specs.Machines.{buckets_of, StandsAt, Answers, Refuses};
ghost use Rattle.table_core.specs.Changes.{standing_at, with_name, with_word};
ghost use Rattle.table_core.specs.Lent.{lent};

use crate::contents::value_of;
use crate::fault::{CoreFault, Rule};
use crate::machine::Machine;
use crate::operation::Operation;
use crate::pairs::Pairs;
use far_object::{FarObject, Memory};
use std::alloc::Global;

impl<K: FarObject, V: FarObject> Machine<K, V> {
    /// A copy of the value that the key has in its bucket.
    pub(crate) fn answer(&self, alloc: Global, bucket: u32, key: &K) -> Result<Option<V>, CoreFault>
        requires { bucket < buckets_of self.now }
        ensures ok { IfOk result (λ answer. IsStrictlySortedBy (key_cmp K.enc) (keys_of (standing_at self.now bucket)) → answer ≡ value_at K.enc key.now (standing_at self.now bucket)) }
        ensures err { IfErr result (λ fault. fault ≡ record { place = 0; rule = Rule.Memory }) }
    {
        match value_of(self.standing(bucket), key) {
            None => Ok(None),
            Some(value) => Ok(Some(value.copy(alloc)?)),
        }
    }

    /// Draws a name for these contents of the bucket.
    pub(crate) fn push_name(&mut self, bucket: u32, pairs: Pairs<K, V>) -> Result<(), Memory>
        ensures ok { OnOk result (self.new ≡ with_name self.old bucket pairs) }
        ensures err { OnErr result (self.new ≡ self.old) }
    {
        self.names.push((bucket, pairs))?;
        Ok(())
    }

    /// Installs the word in the bucket, if there is one.
    pub(crate) fn install(&mut self, bucket: u32, word: Option<u64>)
        requires { bucket < buckets_of self.old }
        ensures { self.new ≡ with_word self.old bucket word }
    {
        if let Some(word) = word {
            self.words[bucket as usize] = word;
        }
    }

    /// A call that may install a word. It is judged before the answer is copied, so that want of memory comes only for a
    /// call that may follow, and the answer is copied before anything is changed.
    pub(crate) fn done<'a>(
        &mut self,
        alloc: Global,
        pass: u32,
        asked: &Operation<&'a K, &'a V>,
        word: Option<u64>,
    ) -> Result<Option<V>, CoreFault>
        ensures ok { IfOk result (λ answer. (log : List (Event K V)) → StandsAt K.enc V.enc self.old log → Answers K.enc V.enc self.old self.new log pass (lent asked.now) word answer) }
        ensures refused { IfErr result (λ fault. (log : List (Event K V)) → StandsAt K.enc V.enc self.old log → Refuses K.enc V.enc self.old log (Event.Done pass (lent asked.now) word) fault) }
        ensures err { OnErr result (self.new ≡ self.old) }
    {
        let bucket = self.judge_done(pass, asked, word)?;
        let answer = self.answer(alloc, bucket, asked.key())?;
        self.install(bucket, word);
        Ok(answer)
    }
}
