//! A table of texts in the plainest form: a machine that keeps the rules, and the object of each bucket.
ghost use Rattle.std.specs.Prelude.{
  ◌≡◌,
  ℕ,
  ◌+◌,
  ◌-◌,
  ◌<◌,
  ◌≤◌,
  ◌^◌,
  [],
  ◌∷◌,
  length,
  vec_len,
  map,
  IfOk,
  IfErr,
  OnErr,
  Some,
  None,
};
ghost use Rattle.std.specs.BTreeMap.{insert_entry};
ghost use Rattle.far_object.specs.Encodings.{enc_text};
ghost use Rattle.far_object.specs.Buckets.{key_cmp};
ghost use Rattle.far_object.specs.Objects.{object_of};
ghost use Rattle.table_core.specs.declared.event.Event.TheVariants.{Named, Done};
ghost use Rattle.table_core.specs.declared.operation.Operation.TheVariants as op;
ghost use Rattle.table_core.specs.declared.fault.Rule.TheVariants as rule;
ghost use Rattle.table_core.specs.Maps.{map_of, is_met, value_at, key_of};
ghost use Rattle.table_core.specs.Logs.{history, names_of};
ghost use Rattle.table_core.specs.Lawful.{AreContents};
ghost use Rattle.table_core.specs.Machines.{buckets_of, StandsAt, GoesOn, Answers, Refuses};
ghost use Rattle.table_core.specs.Lent.{lent_value};
ghost use Rattle.run_lines.specs.Calls.{operation_of};
ghost use Rattle.plain_run.specs.Tables.{Log, IsAt, CallEnds, IsDrawnWord, object_in, MayInstall, Makes, IsUnmade};

use command_file::MapCommand;
use far_object::{FarObject, Memory, Object, Text, bucket_of};
use run_lines::LineRefusal;
use std::alloc::Global;
use table_core::word::{EMPTY_PLACE, pack};
use table_core::{CoreFault, Machine, Pairs, Rule};

/// The most pairs of an object.
const MOST_PAIRS: u32 = 1_048_576;

/// The pass of the one file.
const PASS: u32 = 1;

/// A table that one thread uses. A put that would make an object of more than `limit` bytes is refused.
#[derive(Drop)]
pub struct PlainTable {
    pub machine: Machine<Text, Text>,
    /// The object of each bucket.
    pub objects: Vec<Object<Text, Text>>,
    pub limit: u32,
}

/// Why a call of the machine that keeps the rules was refused.
fn for_memory(fault: CoreFault) -> LineRefusal
    requires { fault.rule ≡ rule.Memory }
    ensures { result ≡ LineRefusal.Memory }
{
    match fault.rule {
        Rule::Memory => LineRefusal::Memory,
        _ => unreachable!(),
    }
}

/// Draws a name for the object's pairs in the bucket, and makes the word of it.
fn draw(
    machine: &mut Machine<Text, Text>,
    alloc: Global,
    bucket: u32,
    object: &Object<Text, Text>,
) -> Result<u64, LineRefusal>
    requires stands { (log : Log) × StandsAt enc_text enc_text machine.old log × (names_of log < 2 ^ 40 - 1) }
    requires bucket { bucket < buckets_of machine.old }
    requires contents { AreContents enc_text (buckets_of machine.old) bucket object.now }
    ensures drawn { IfOk result (λ word. (log : Log) → StandsAt enc_text enc_text machine.old log
        → IsDrawnWord log object.now word × GoesOn enc_text enc_text machine.old machine.new log (Named (names_of log + 1) bucket object.now)) }
    ensures err { OnErr result (machine.new ≡ machine.old) }
    ensures why { IfErr result (λ refusal. refusal ≡ LineRefusal.Memory) }
{
    let pairs = Pairs::new(object.entries(alloc)?);
    let name = match machine.name(bucket, pairs) {
        Ok(name) => name,
        Err(fault) => return Err(for_memory(fault)),
    };
    let place = if object.count() == 0 { EMPTY_PLACE } else { 0 };
    Ok(pack(name, place))
}

/// The key of a command.
fn key_of(command: &MapCommand) -> &Text
    ensures { result.now ≡ key_of (operation_of command.now) }
{
    match command {
        MapCommand::Put { key, value: _ } => key,
        MapCommand::Get { key } => key,
        MapCommand::Delete { key } => key,
        MapCommand::PutIf {
            key,
            expected: _,
            value: _,
        } => key,
        MapCommand::PutNew { key, value: _ } => key,
        MapCommand::Hold { key } => key,
    }
}

/// The machine's call for a command, which installs the word if there is one.
fn call(
    machine: &mut Machine<Text, Text>,
    alloc: Global,
    command: &MapCommand,
    word: Option<u64>,
) -> Result<Option<Text>, CoreFault>
    requires { MayInstall (operation_of command.now) word }
    ensures ok { IfOk result (λ answer. (log : Log) → StandsAt enc_text enc_text machine.old log → Answers enc_text enc_text machine.old machine.new log 1 (operation_of command.now) word answer) }
    ensures refused { IfErr result (λ fault. (log : Log) → StandsAt enc_text enc_text machine.old log → Refuses enc_text enc_text machine.old log (Done 1 (operation_of command.now) word) fault) }
    ensures err { OnErr result (machine.new ≡ machine.old) }
{
    match command {
        MapCommand::Put { key, value } => match word {
            Some(word) => machine.put(alloc, PASS, key, value, word),
            None => unreachable!(),
        },
        MapCommand::Get { key } => match word {
            None => machine.get(alloc, PASS, key),
            Some(_) => unreachable!(),
        },
        MapCommand::Delete { key } => machine.remove(alloc, PASS, key, word),
        MapCommand::PutIf {
            key,
            expected,
            value,
        } => machine.put_if(alloc, PASS, key, Some(expected), value, word),
        MapCommand::PutNew { key, value } => machine.put_if(alloc, PASS, key, None, value, word),
        MapCommand::Hold { key } => match word {
            None => machine.get(alloc, PASS, key),
            Some(_) => unreachable!(),
        },
    }
}

/// So many objects without a pair.
fn empty_objects(alloc: Global, count: u32) -> Result<Vec<Object<Text, Text>>, Memory>
    ensures count { IfOk result (λ objects. vec_len objects ≡ count) }
    ensures empty { IfOk result (λ objects. (b : ℕ) → object_in objects.items b ≡ []) }
{
    let mut objects = Vec::with_capacity(alloc, count as usize)?;
    for _ in 0..count {
        objects.push(Object::empty(alloc)?)?;
    }
    Ok(objects)
}

impl PlainTable {
    /// A table without a pair, in which the first pass has entered.
    pub fn open(alloc: Global, buckets: u32, limit: u32) -> Result<PlainTable, Memory>
        requires some { 0 < buckets }
        requires few { buckets ≤ 65536 }
        requires limited { limit ≤ 1048576 }
        ensures stands { IfOk result (λ table. (log : Log) × IsAt table log × (history log ≡ []) × (names_of log ≡ 0)) }
        ensures settings { IfOk result (λ table. (buckets_of table.machine ≡ buckets) × (table.limit ≡ limit)) }
    {
        let mut machine = match Machine::new(alloc, buckets) {
            Ok(machine) => machine,
            Err(_) => return Err(Memory),
        };
        match machine.enter() {
            Ok(_) => {}
            Err(_) => unreachable!(),
        }
        match empty_objects(alloc, buckets) {
            Ok(objects) => Ok(PlainTable {
                machine,
                objects,
                limit,
            }),
            Err(_) => Err(Memory),
        }
    }

    /// The pairs, in key order.
    pub fn pairs(&self, alloc: Global) -> Result<Vec<&(Text, Text)>, Memory>
        ensures { IfOk result (λ pairs. (log : Log) → IsAt self.now log → map (λ e. e.now) pairs.items ≡ map_of enc_text enc_text (history log)) }
    {
        self.machine.pairs(alloc)
    }

    /// The bucket's object.
    fn stored(&self, bucket: u32) -> &Object<Text, Text>
        requires { bucket < vec_len self.now.objects }
        ensures { result.now ≡ object_in self.now.objects.items bucket }
    {
        &self.objects[bucket as usize]
    }

    /// The bucket's object with the value at the key.
    fn with(
        &self,
        alloc: Global,
        bucket: u32,
        key: &Text,
        value: &Text,
    ) -> Result<Option<Object<Text, Text>>, LineRefusal>
        requires there { bucket < vec_len self.now.objects }
        requires limited { self.now.limit ≤ 1048576 }
        ensures { Makes self.now.limit (object_in self.now.objects.items bucket) (op.Put key.now value.now) result }
    {
        let object = self.stored(bucket);
        if object.count() >= MOST_PAIRS {
            return Err(LineRefusal::TooLong);
        }
        let object = match object.with(alloc, key, value) {
            Ok(object) => object,
            Err(_) => return Err(LineRefusal::Memory),
        };
        if object.as_bytes().len() > self.limit as usize {
            return Err(LineRefusal::TooLong);
        }
        Ok(Some(object))
    }

    /// The bucket's object without the key, if it has it.
    fn without(
        &self,
        alloc: Global,
        bucket: u32,
        key: &Text,
    ) -> Result<Option<Object<Text, Text>>, LineRefusal>
        requires there { bucket < vec_len self.now.objects }
        ensures { Makes self.now.limit (object_in self.now.objects.items bucket) (op.Remove key.now) result }
    {
        let object = self.stored(bucket);
        match object.find(key) {
            None => return Ok(None),
            Some(_) => {}
        }
        match object.without(alloc, key) {
            Ok(object) => Ok(Some(object)),
            Err(_) => Err(LineRefusal::Memory),
        }
    }

    /// Whether the key's value is the expected one.
    fn is_met(&self, bucket: u32, key: &Text, expected: Option<&Text>) -> bool
        requires { bucket < vec_len self.now.objects }
        ensures { result ≡ is_met enc_text (lent_value expected.entry) (value_at enc_text key.now (object_in self.now.objects.items bucket)) }
    {
        let object = self.stored(bucket);
        match (object.find(key), expected) {
            (None, None) => true,
            (Some(place), Some(expected)) => expected
                .compare_to_bytes(&object.as_bytes()[place])
                .is_eq(),
            _ => false,
        }
    }

    /// The bucket's object with the value at the key, if the key has the expected value.
    fn with_if(
        &self,
        alloc: Global,
        bucket: u32,
        key: &Text,
        expected: Option<&Text>,
        value: &Text,
    ) -> Result<Option<Object<Text, Text>>, LineRefusal>
        requires there { bucket < vec_len self.now.objects }
        requires limited { self.now.limit ≤ 1048576 }
        ensures { Makes self.now.limit (object_in self.now.objects.items bucket) (op.PutIf key.now (lent_value expected.entry) value.now) result }
    {
        if self.is_met(bucket, key, expected) {
            self.with(alloc, bucket, key, value)
        } else {
            Ok(None)
        }
    }

    /// The object that the command makes of its bucket's, if it changes it.
    fn made(
        &self,
        alloc: Global,
        bucket: u32,
        command: &MapCommand,
    ) -> Result<Option<Object<Text, Text>>, LineRefusal>
        requires there { bucket < vec_len self.now.objects }
        requires limited { self.now.limit ≤ 1048576 }
        ensures { Makes self.now.limit (object_in self.now.objects.items bucket) (operation_of command.now) result }
    {
        match command {
            MapCommand::Put { key, value } => self.with(alloc, bucket, key, value),
            MapCommand::Get { key: _ } => Ok(None),
            MapCommand::Delete { key } => self.without(alloc, bucket, key),
            MapCommand::PutIf {
                key,
                expected,
                value,
            } => self.with_if(alloc, bucket, key, Some(expected), value),
            MapCommand::PutNew { key, value } => self.with_if(alloc, bucket, key, None, value),
            MapCommand::Hold { key: _ } => Ok(None),
        }
    }

    /// Does what a command asks. A refused command leaves the pairs as they were.
    pub fn answer(
        &mut self,
        alloc: Global,
        command: &MapCommand,
    ) -> Result<Option<Text>, LineRefusal>
        requires stands { (log : Log) × IsAt self.old log × (names_of log < 2 ^ 40 - 1) }
        ensures { (log : Log) → IsAt self.old log → names_of log < 2 ^ 40 - 1 → CallEnds self.old self.new log (operation_of command.now) result }
    {
        let bucket = bucket_of(key_of(command), self.machine.buckets());
        let made = match self.made(alloc, bucket, command) {
            Ok(made) => made,
            Err(refusal) => return Err(refusal),
        };
        let Some(object) = made else {
            return match call(&mut self.machine, alloc, command, None) {
                Ok(answer) => Ok(answer),
                Err(fault) => Err(for_memory(fault)),
            };
        };
        let word = match draw(&mut self.machine, alloc, bucket, &object) {
            Ok(word) => word,
            Err(refusal) => return Err(refusal),
        };
        let answer = match call(&mut self.machine, alloc, command, Some(word)) {
            Ok(answer) => answer,
            Err(fault) => return Err(for_memory(fault)),
        };
        self.objects[bucket as usize] = object;
        Ok(answer)
    }
}
