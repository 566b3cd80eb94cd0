//! The machine of one table: it keeps the words of the buckets, the contents of each name and the passes, and takes the
//! events one after another, each only where the rules of a lawful log let it follow.
ghost use Rattle.std.specs.Prelude.{◌≡◌, ◌≢◌, ◌+◌, ◌<◌, ◌≤◌, List, [], IfOk, IfErr, OnErr};
ghost use Rattle.table_core.specs.declared.event.Event.{Event};
ghost use Rattle.table_core.specs.declared.fault.Rule.{Rule};
ghost use Rattle.table_core.specs.declared.operation.Operation.{Operation};
ghost use Rattle.table_core.specs.Logs.{names_of, passes_of};
ghost use Rattle.table_core.specs.Lent.{lent_value};
ghost use Rattle.table_core.specs.Limits.{most_buckets};
ghost use Rattle.table_core.specs.Machines.{buckets_of, StandsAt, GoesOn, Answers, Refuses};

use crate::fault::{CoreFault, Rule};
use crate::limits::LAST_PASS;
use crate::operation::Operation;
use crate::pairs::Pairs;
use far_object::FarObject;
use std::alloc::Global;
use std::marker::Model;

mod all_pairs;
mod calls;
mod replay;
mod rules;
mod views;

/// Where a table stands after the events of a log. Contracts see its words, the bucket and the contents of each name, and
/// the last pass.
#[derive(Drop)]
pub struct Machine<K, V> {
    /// The word of each bucket.
    words: Vec<u64>,
    /// The bucket and the contents of the name n, at n - 1.
    names: Vec<(u32, Pairs<K, V>)>,
    /// The last pass that was drawn.
    passes: u32,
}

impl<K, V> Model for Machine<K, V> {
    ghost use Rattle.std.specs.Prelude.{◌<◌, ◌≤◌, length};
    ghost use Rattle.table_core.specs.Limits.{most_buckets};
    ghost use Rattle.table_core.specs.Machines.{MachineView};

    ghost Value = { MachineView K V };

    ghost view = { λ m. record { words = m.words.items; names = m.names.items; passes = m.passes } };

    ghost invariant = { λ m. (0 < length m.words.items) × (length m.words.items ≤ most_buckets) };
}

impl<K: FarObject, V: FarObject> Machine<K, V> {
    /// The machine of a table to which nothing has happened.
    pub fn new(alloc: Global, buckets: u32) -> Result<Machine<K, V>, CoreFault>
        requires some { 0 < buckets }
        requires few { buckets ≤ most_buckets }
        ensures stands { IfOk result (λ m. StandsAt K.enc V.enc m []) }
        ensures buckets { IfOk result (λ m. buckets_of m ≡ buckets) }
        ensures memory { IfErr result (λ fault. fault ≡ record { place = 0; rule = Rule.Memory }) }
    {
        match Vec::from_elem(alloc, 0u64, buckets as usize) {
            Err(_) => Err(CoreFault::from(Rule::Memory)),
            Ok(words) => Ok(Machine {
                words,
                names: Vec::new(alloc),
                passes: 0,
            }),
        }
    }

    /// Draws the next pass. It is refused only where each pass was drawn. It takes no memory.
    pub fn enter(&mut self) -> Result<u32, CoreFault>
        ensures ok { IfOk result (λ pass. (log : List (Event K V)) → StandsAt K.enc V.enc self.old log → GoesOn K.enc V.enc self.old self.new log (Event.Enter pass)) }
        ensures refused { IfErr result (λ fault. (log : List (Event K V)) → StandsAt K.enc V.enc self.old log → Refuses K.enc V.enc self.old log (Event.Enter (passes_of log + 1)) fault) }
        ensures only { IfErr result (λ fault. fault.rule ≡ Rule.WrongPass) }
        ensures err { OnErr result (self.new ≡ self.old) }
    {
        if self.passes >= LAST_PASS {
            return Err(CoreFault::from(Rule::WrongPass));
        }
        self.passes += 1;
        Ok(self.passes)
    }

    /// Draws the next name, for these contents of the bucket.
    pub fn name(&mut self, bucket: u32, pairs: Pairs<K, V>) -> Result<u64, CoreFault>
        ensures ok { IfOk result (λ name. (log : List (Event K V)) → StandsAt K.enc V.enc self.old log → (name ≡ names_of log + 1) × GoesOn K.enc V.enc self.old self.new log (Event.Named name bucket pairs)) }
        ensures refused { IfErr result (λ fault. (log : List (Event K V)) → StandsAt K.enc V.enc self.old log → Refuses K.enc V.enc self.old log (Event.Named (names_of log + 1) bucket pairs) fault) }
        ensures err { OnErr result (self.new ≡ self.old) }
    {
        self.judge_naming(bucket, pairs.as_slice())?;
        self.push_name(bucket, pairs)?;
        Ok(self.names())
    }

    /// Sets the key to the value, installing the word. The answer is a copy of the value that the key had.
    pub fn put(
        &mut self,
        alloc: Global,
        pass: u32,
        key: &K,
        value: &V,
        word: u64,
    ) -> Result<Option<V>, CoreFault>
        ensures ok { IfOk result (λ answer. (log : List (Event K V)) → StandsAt K.enc V.enc self.old log → Answers K.enc V.enc self.old self.new log pass (Operation.Put key.now value.now) (Some word) answer) }
        ensures refused { IfErr result (λ fault. (log : List (Event K V)) → StandsAt K.enc V.enc self.old log → Refuses K.enc V.enc self.old log (Event.Done pass (Operation.Put key.now value.now) (Some word)) fault) }
        ensures err { OnErr result (self.new ≡ self.old) }
    {
        self.done(alloc, pass, &Operation::Put(key, value), Some(word))
    }

    /// A copy of the value of the key. The machine stands where it stood, and at the log with this call as well.
    pub fn get(&self, alloc: Global, pass: u32, key: &K) -> Result<Option<V>, CoreFault>
        ensures ok { IfOk result (λ answer. (log : List (Event K V)) → StandsAt K.enc V.enc self.now log → Answers K.enc V.enc self.now self.now log pass (Operation.Get key.now) None answer) }
        ensures refused { IfErr result (λ fault. (log : List (Event K V)) → StandsAt K.enc V.enc self.now log → Refuses K.enc V.enc self.now log (Event.Done pass (Operation.Get key.now) None) fault) }
    {
        let bucket = self.judge_done(pass, &Operation::Get(key), None)?;
        self.answer(alloc, bucket, key)
    }

    /// Takes the key out, installing the word if there is one. The answer is a copy of the value that the key had.
    pub fn remove(
        &mut self,
        alloc: Global,
        pass: u32,
        key: &K,
        word: Option<u64>,
    ) -> Result<Option<V>, CoreFault>
        ensures ok { IfOk result (λ answer. (log : List (Event K V)) → StandsAt K.enc V.enc self.old log → Answers K.enc V.enc self.old self.new log pass (Operation.Remove key.now) word answer) }
        ensures refused { IfErr result (λ fault. (log : List (Event K V)) → StandsAt K.enc V.enc self.old log → Refuses K.enc V.enc self.old log (Event.Done pass (Operation.Remove key.now) word) fault) }
        ensures err { OnErr result (self.new ≡ self.old) }
    {
        self.done(alloc, pass, &Operation::Remove(key), word)
    }

    /// Sets the key to the value where its value is the expected one, installing the word if there is one. The answer is a
    /// copy of the value that the key had.
    pub fn put_if(
        &mut self,
        alloc: Global,
        pass: u32,
        key: &K,
        expected: Option<&V>,
        value: &V,
        word: Option<u64>,
    ) -> Result<Option<V>, CoreFault>
        ensures ok { IfOk result (λ answer. (log : List (Event K V)) → StandsAt K.enc V.enc self.old log → Answers K.enc V.enc self.old self.new log pass (Operation.PutIf key.now (lent_value expected.entry) value.now) word answer) }
        ensures refused { IfErr result (λ fault. (log : List (Event K V)) → StandsAt K.enc V.enc self.old log → Refuses K.enc V.enc self.old log (Event.Done pass (Operation.PutIf key.now (lent_value expected.entry) value.now) word) fault) }
        ensures err { OnErr result (self.new ≡ self.old) }
    {
        self.done(alloc, pass, &Operation::PutIf(key, expected, value), word)
    }

    /// Installs a word whose contents are those that stand in the bucket. It takes no memory.
    pub fn move_to(&mut self, bucket: u32, word: u64) -> Result<(), CoreFault>
        ensures ok { IfOk result (λ _. (log : List (Event K V)) → StandsAt K.enc V.enc self.old log → GoesOn K.enc V.enc self.old self.new log (Event.Moved bucket word)) }
        ensures refused { IfErr result (λ fault. (log : List (Event K V)) → StandsAt K.enc V.enc self.old log → Refuses K.enc V.enc self.old log (Event.Moved bucket word) fault) }
        ensures rules { IfErr result (λ fault. fault.rule ≢ Rule.Memory) }
        ensures err { OnErr result (self.new ≡ self.old) }
    {
        self.judge_move(bucket, word)?;
        self.install(bucket, Some(word));
        Ok(())
    }
}
