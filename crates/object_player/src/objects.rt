//! One object, changed and read by the calls of `far_object`.

use crate::damage::compare_readers;
use crate::values::Value;
use crate::world::{
    World, bytes, fault, memory, named, nothing, number, run, small, told, unknown, word,
};
use anyhow::{Result, bail};
use case_files::{Line, Playing, push_spelled};
use far_object::{Format, MOST_PAIRS, Memory, Object, ObjectFault, Text};
use std::alloc::Global;

/// The object of a case, whose keys are texts or numbers, and values texts.
#[derive(Drop)]
struct OneObject<K: Value> {
    alloc: Global,
    object: Object<K, Text>,
}

pub(crate) fn play(alloc: Global, first: &Line, playing: &mut Playing<'_>) -> Result<()> {
    match first.named("keys") {
        Some(b"numbers") => play_keys::<u64>(alloc, first, playing),
        _ => play_keys::<Text>(alloc, first, playing),
    }
}

fn play_keys<K: Value>(alloc: Global, first: &Line, playing: &mut Playing<'_>) -> Result<()> {
    let mut object = Object::empty(alloc)?;
    let pairs = named(first, "pairs", 0)?;
    if pairs > MOST_PAIRS {
        bail!("pairs= is at most {MOST_PAIRS}");
    }
    if pairs != 0 {
        object = object_of_many(alloc, pairs)?;
    }
    run(alloc, first, playing, &mut OneObject::<K> { alloc, object });
    Ok(())
}

/// The object of so many pairs, whose keys are the numbers from 0 on, as they are encoded in 3 bytes, and whose values are empty.
fn object_of_many<K: Value>(alloc: Global, pairs: u32) -> Result<Object<K, Text>> {
    let mut bytes = Vec::from_slice(alloc, &pairs.to_be_bytes())?;
    for number in 0..pairs {
        let key = number.to_be_bytes();
        bytes.extend_from_slice(&[0, 3, key[1], key[2], key[3], 0, 0])?;
    }
    match Object::read(bytes) {
        Ok(object) => Ok(object),
        Err((fault, _)) => bail!("{fault}"),
    }
}

/// What reading replied. Bytes that are no object come back as they were.
fn told_reading<K: Value>(
    alloc: Global,
    read: std::result::Result<Object<K, Text>, (ObjectFault, Vec<u8>)>,
    given: &[u8],
) -> Result<String> {
    match read {
        Ok(_) => nothing(alloc),
        Err((why, kept)) => {
            if kept.as_slice() != given {
                bail!("other bytes came back than were read");
            }
            fault(alloc, &why)
        }
    }
}

impl<K: Value> OneObject<K> {
    fn key(&self, line: &Line) -> Result<K> {
        K::of(self.alloc, word(line, 1)?)
    }

    fn value(&self, line: &Line) -> Result<Text> {
        <Text as Value>::of(self.alloc, word(line, 2)?)
    }

    /// Puts the object in place of the one that was there.
    fn take(&mut self, object: std::result::Result<Object<K, Text>, Memory>) -> Result<String> {
        match object {
            Ok(object) => {
                self.object = object;
                nothing(self.alloc)
            }
            Err(Memory) => memory(self.alloc),
        }
    }

    /// The bytes of an object that is only looked at.
    fn look(&self, object: std::result::Result<Object<K, Text>, Memory>) -> Result<String> {
        match object {
            Ok(object) => told(self.alloc, object.as_bytes()),
            Err(Memory) => memory(self.alloc),
        }
    }

    fn told_value(&self, value: std::result::Result<Option<Text>, Memory>) -> Result<String> {
        match value {
            Ok(Some(value)) => told(self.alloc, value.as_bytes()),
            Ok(None) => crate::world::text(self.alloc, "none"),
            Err(Memory) => memory(self.alloc),
        }
    }

    fn change(&mut self, line: &Line) -> Result<String> {
        match line.call() {
            "put" => {
                let (key, value) = (self.key(line)?, self.value(line)?);
                if self.object.count() >= MOST_PAIRS {
                    bail!("the object is full");
                }
                let object = self.object.with(self.alloc, &key, &value);
                self.take(object)
            }
            "of_pair" => {
                let (key, value) = (self.key(line)?, self.value(line)?);
                self.take(Object::of_pair(self.alloc, &key, &value))
            }
            "remove" => {
                let key = self.key(line)?;
                let object = self.object.without(self.alloc, &key);
                self.take(object)
            }
            "read" | "read_at" => self.read(line),
            _ => self.look_at(line),
        }
    }

    /// Reads bytes, and keeps what they are.
    fn read(&mut self, line: &Line) -> Result<String> {
        let given = bytes(self.alloc, line, 1)?;
        let copy = Vec::from_slice(self.alloc, given.as_slice())?;
        let read = if line.call() == "read_at" {
            Object::read_at(copy, small(line, 2)?, number(line, 3)?)
        } else {
            Object::read(copy)
        };
        match read {
            Ok(object) => self.take(Ok(object)),
            Err(why) => told_reading::<K>(self.alloc, Err(why), given.as_slice()),
        }
    }

    /// Reads each shorter beginning of the bytes, and replies the fault that all have.
    fn read_prefixes(&self, line: &Line) -> Result<String> {
        let whole = bytes(self.alloc, line, 1)?;
        let mut first: Option<String> = None;
        for end in 0..whole.len() {
            let part = whole.as_slice().get(..end).unwrap_or(&[]);
            let copy = Vec::from_slice(self.alloc, part)?;
            let read = if line.count() > 1 {
                Object::<K, Text>::read_at(copy, small(line, 2)?, number(line, 3)?)
            } else {
                Object::<K, Text>::read(copy)
            };
            let reply = told_reading(self.alloc, read, part)?;
            match &first {
                Some(one) if one.as_str() != reply.as_str() => {
                    bail!("the first {end} bytes: {reply}")
                }
                Some(_) => {}
                None => first = Some(reply),
            }
        }
        Ok(first.unwrap_or(String::new(self.alloc)))
    }

    /// What the object is and has.
    fn look_at(&self, line: &Line) -> Result<String> {
        match line.call() {
            "read_prefixes" => self.read_prefixes(line),
            "as_bytes" => told(self.alloc, self.object.as_bytes()),
            "count" => crate::world::shown(self.alloc, &self.object.count()),
            "find" => match self.object.find(&self.key(line)?) {
                Some(found) => Ok(format!(in self.alloc; "{}..{}", found.start, found.end)?),
                None => crate::world::text(self.alloc, "none"),
            },
            "value" => self.told_value(self.object.value(self.alloc, &self.key(line)?)),
            "with" => {
                let (key, value) = (self.key(line)?, self.value(line)?);
                if self.object.count() >= MOST_PAIRS {
                    bail!("the object is full");
                }
                self.look(self.object.with(self.alloc, &key, &value))
            }
            "without" => self.look(self.object.without(self.alloc, &self.key(line)?)),
            "entries" => self.entries(),
            "write_at" => self.write_at(line),
            "tampered" => {
                let (bucket, name) = (small(line, 2)?, number(line, 3)?);
                compare_readers(self.alloc, word(line, 1)?, bucket, name)
            }
            _ => self.look_at_entry(line),
        }
    }

    /// The same by an entry, which looked for the key once.
    fn look_at_entry(&self, line: &Line) -> Result<String> {
        if !line.call().starts_with("entry_") {
            return unknown(line);
        }
        let key = self.key(line)?;
        let entry = self.object.entry(&key);
        match line.call() {
            "entry_value" => self.told_value(entry.value(self.alloc)),
            "entry_without" => self.look(entry.without(self.alloc)),
            "entry_with" => {
                let value = self.value(line)?;
                if self.object.count() >= MOST_PAIRS {
                    bail!("the object is full");
                }
                self.look(entry.with(self.alloc, &value))
            }
            _ => unknown(line),
        }
    }

    /// All pairs, each as its key and its value.
    fn entries(&self) -> Result<String> {
        let Ok(entries) = self.object.entries(self.alloc) else {
            return memory(self.alloc);
        };
        let mut out = String::new(self.alloc);
        for (key, value) in &entries {
            if !out.is_empty() {
                out.push(' ')?;
            }
            key.tell(&mut out)?;
            out.push(' ')?;
            push_spelled(&mut out, value.as_bytes())?;
        }
        Ok(out)
    }

    /// Writes the object behind a byte that has to stay.
    fn write_at(&self, line: &Line) -> Result<String> {
        let format = match word(line, 1)? {
            b"one" => Format::One,
            b"two" => Format::Two,
            _ => bail!("the format is one or two"),
        };
        let (bucket, name) = (small(line, 2)?, number(line, 3)?);
        let mut out = Vec::from_slice(self.alloc, &[7])?;
        let done = self.object.write_at(format, bucket, name, &mut out);
        match out.as_slice().split_first() {
            Some((7, written)) if done.is_ok() => told(self.alloc, written),
            Some((7, [])) => memory(self.alloc),
            _ => bail!("what stood before is gone"),
        }
    }
}

impl<K: Value> World for OneObject<K> {
    fn call(&mut self, line: &Line) -> Result<String> {
        self.change(line)
    }
}
