//! Numbers, texts and blobs as bytes: the calls of `FarObject`, for one type.

use crate::orders::{compare, cut_and_longer, fronts, rising};
use crate::values::Value;
use crate::world::{World, bytes, fault, memory, nothing, run, shown, small, told, unknown};
use anyhow::{Result, bail};
use case_files::{Line, Playing};
use far_blob::Blob;
use far_object::{FarObject, ObjectFault, Text, bucket_of};
use std::alloc::Global;
use std::marker::PhantomData;

/// The type whose values the calls are given.
#[derive(Drop)]
struct Encodings<V: Value> {
    alloc: Global,
    values: PhantomData<V>,
}

pub(crate) fn play(alloc: Global, first: &Line, playing: &mut Playing<'_>) -> Result<()> {
    match first.word(1) {
        Some(b"numbers") => play_of::<u64>(alloc, first, playing),
        Some(b"texts") => play_of::<Text>(alloc, first, playing),
        Some(b"blobs") => play_of::<Blob>(alloc, first, playing),
        _ => bail!("encodings are of numbers, texts or blobs"),
    }
    Ok(())
}

fn play_of<V: Value>(alloc: Global, first: &Line, playing: &mut Playing<'_>) {
    let values = PhantomData;
    run(alloc, first, playing, &mut Encodings::<V> { alloc, values });
}

/// What `encode` appends to a list that is not empty, or none where a growth was refused.
pub(crate) fn encoding<V: FarObject>(alloc: Global, value: &V) -> Result<Option<Vec<u8>>> {
    let mut out = Vec::from_slice(alloc, &[7])?;
    if value.encode(&mut out).is_err() {
        if out.as_slice() != [7].as_slice() {
            bail!("a refused encoding is appended");
        }
        return Ok(None);
    }
    match out.as_slice().split_first() {
        Some((7, encoding)) => Ok(Some(Vec::from_slice(alloc, encoding)?)),
        _ => bail!("what stood before is gone"),
    }
}

/// What `encode` appends, as a reply.
fn told_encoding<V: FarObject>(alloc: Global, value: &V) -> Result<String> {
    match encoding(alloc, value)? {
        Some(bytes) => told(alloc, bytes.as_slice()),
        None => memory(alloc),
    }
}

impl<V: Value> Encodings<V> {
    fn value(&self, line: &Line) -> Result<V> {
        V::of(self.alloc, bytes(self.alloc, line, 1)?.as_slice())
    }

    /// Makes the value, and replies its fault, if there is one.
    fn make(&self, line: &Line) -> Result<String> {
        let word = bytes(self.alloc, line, 1)?;
        let made = if line.call() == "from_vec" {
            V::of_vec(self.alloc, word)
        } else {
            V::of(self.alloc, word.as_slice())
        };
        match made {
            Ok(value) => {
                value.admitted();
                nothing(self.alloc)
            }
            Err(why) => fault(self.alloc, &why),
        }
    }

    /// Each byte of the encoding by its place.
    fn byte_at(&self, line: &Line) -> Result<String> {
        let value = self.value(line)?;
        let mut out = Vec::new(self.alloc);
        for at in 0..value.len() {
            if at < value.len() {
                out.push(value.byte_at(at))?;
            }
        }
        told(self.alloc, out.as_slice())
    }

    fn decode(&self, line: &Line) -> Result<String> {
        match V::decode(self.alloc, bytes(self.alloc, line, 1)?.as_slice()) {
            Ok((value, size)) => {
                let mut out = String::new(self.alloc);
                value.tell(&mut out)?;
                out.push_str(format!(in self.alloc; ", {size} bytes")?.as_str())?;
                Ok(out)
            }
            Err(why) => fault(self.alloc, &why),
        }
    }

    /// Decodes, or skips, each shorter beginning, and counts those that are too short.
    fn cut(&self, line: &Line) -> Result<String> {
        let whole = bytes(self.alloc, line, 1)?;
        let mut count = 0u64;
        for end in 0..whole.len() {
            let part = whole.as_slice().get(..end).unwrap_or(&[]);
            let why = match line.call() {
                "decode_prefixes" => V::decode(self.alloc, part).err(),
                _ => V::skip(part).err(),
            };
            if why != Some(ObjectFault::Short) {
                bail!("the first {end} bytes are not too short");
            }
            count = count.saturating_add(1);
        }
        Ok(format!(in self.alloc; "{count} too short")?)
    }

    fn write(&self, line: &Line) -> Result<String> {
        match line.call() {
            "encode" => told_encoding(self.alloc, &self.value(line)?),
            "len" => shown(self.alloc, &self.value(line)?.len()),
            "byte_at" => self.byte_at(line),
            "copy" => match self.value(line)?.copy(self.alloc) {
                Ok(copy) => told_encoding(self.alloc, &copy),
                Err(why) => fault(self.alloc, &why),
            },
            "as_bytes" => {
                let mut out = String::new(self.alloc);
                self.value(line)?.tell(&mut out)?;
                Ok(out)
            }
            "into_bytes" => {
                let value = self.value(line)?;
                told(self.alloc, value.into_vec(self.alloc)?.as_slice())
            }
            "bucket_of" => shown(self.alloc, &self.bucket(line)?),
            _ => self.order(line),
        }
    }

    /// The bucket of the value, in so many.
    fn bucket(&self, line: &Line) -> Result<u32> {
        let buckets = small(line, 2)?;
        if buckets == 0 {
            bail!("there is no bucket");
        }
        Ok(bucket_of(&self.value(line)?, buckets))
    }

    fn order(&self, line: &Line) -> Result<String> {
        match line.call() {
            "compare" => compare::<V>(self.alloc, line),
            "compare_cut_and_longer" => cut_and_longer(self.alloc, &self.value(line)?),
            "compare_rising" => rising(self.alloc, line),
            "compare_fronts" => fronts(self.alloc, line),
            _ => unknown(line),
        }
    }
}

impl<V: Value> World for Encodings<V> {
    fn call(&mut self, line: &Line) -> Result<String> {
        match line.call() {
            "new" | "from_vec" => self.make(line),
            "decode" => self.decode(line),
            "skip" => match V::skip(bytes(self.alloc, line, 1)?.as_slice()) {
                Ok(size) => shown(self.alloc, &size),
                Err(why) => fault(self.alloc, &why),
            },
            "decode_prefixes" | "skip_prefixes" => self.cut(line),
            _ => self.write(line),
        }
    }
}
