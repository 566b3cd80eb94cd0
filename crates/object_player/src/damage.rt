//! Objects with a byte changed, cut or added, read beside a decoder of texts that is as plain as can be.
use crate::world::shown;
use anyhow::{Result, bail};
use case_files::spelled;
use far_object::{Object, ObjectFault, Text};
use std::alloc::Global;

/// What reading gives.
type Read<T, F> = std::result::Result<T, F>;

/// The text at the front of the bytes, with its length, and the bytes behind it.
fn split_text(bytes: &[u8]) -> Read<(&[u8], &[u8]), ObjectFault> {
    if bytes.len() < 2 {
        return Err(ObjectFault::Short);
    }
    let end = usize::from(bytes[0]) * 256 + usize::from(bytes[1]) + 2;
    if bytes.len() < end {
        return Err(ObjectFault::Short);
    }
    Ok((&bytes[..end], &bytes[end..]))
}

/// Whether the key comes behind the last one, byte after byte.
fn is_behind(last: &[u8], key: &[u8]) -> bool {
    for (own, other) in last.iter().zip(key) {
        if *own != *other {
            return *own < *other;
        }
    }
    last.len() < key.len()
}

/// The bytes, or their first fault in the first format.
fn decoded(bytes: &[u8]) -> Read<&[u8], ObjectFault> {
    if bytes.len() < 4 {
        return Err(ObjectFault::Short);
    }
    let high = u64::from(bytes[0]) * 256 + u64::from(bytes[1]);
    let count = (high * 256 + u64::from(bytes[2])) * 256 + u64::from(bytes[3]);
    if 1_048_576 < count {
        return Err(ObjectFault::CountWrong);
    }
    let mut last: Option<&[u8]> = None;
    let mut rest = &bytes[4..];
    for _ in 0..count {
        let (key, behind) = split_text(rest)?;
        if let Some(before) = last
            && !is_behind(before, key)
        {
            return Err(ObjectFault::Disorder);
        }
        rest = split_text(behind)?.1;
        last = Some(key);
    }
    if rest.is_empty() {
        Ok(bytes)
    } else {
        Err(ObjectFault::Trailing)
    }
}

/// The object's bytes in either format, or the first fault, where a header is to give this bucket and name.
fn decoded_at<'a>(bytes: &'a [u8], place: &[u8; 12]) -> Read<&'a [u8], ObjectFault> {
    if !bytes.starts_with(&[255; 4]) {
        return decoded(bytes);
    }
    if bytes.len() < 16 {
        return Err(ObjectFault::Short);
    }
    if bytes[4..16] != place[..] {
        return Err(ObjectFault::Misplaced);
    }
    decoded(&bytes[16..])
}

/// Whether what was read of the bytes is what the plain decoder says. Bytes that are no object come back.
fn agrees(
    read: Read<Object<Text, Text>, (ObjectFault, Vec<u8>)>,
    wanted: Read<&[u8], ObjectFault>,
    bytes: &[u8],
) -> bool {
    match read {
        Ok(object) => wanted == Ok(object.as_bytes()),
        Err((fault, kept)) => wanted == Err(fault) && kept.as_slice() == bytes,
    }
}

/// Both readers beside the plain decoder, for one bucket and name.
#[derive(Drop)]
struct Readers {
    alloc: Global,
    bucket: u32,
    name: u64,
    /// The bucket and the name as they stand in a header.
    place: [u8; 12],
    /// How many lists of bytes were read.
    count: u64,
}

impl Readers {
    fn compare(&mut self, bytes: &[u8]) -> Result<()> {
        self.count = self.count.saturating_add(1);
        let read = Object::read(Vec::from_slice(self.alloc, bytes)?);
        if !agrees(read, decoded(bytes), bytes) {
            bail!("read {}", spelled(self.alloc, bytes)?);
        }
        let read = Object::read_at(Vec::from_slice(self.alloc, bytes)?, self.bucket, self.name);
        if !agrees(read, decoded_at(bytes, &self.place), bytes) {
            bail!("read_at {}", spelled(self.alloc, bytes)?);
        }
        Ok(())
    }

    /// Each byte in turn is 0, 255 and its two neighbours.
    fn change_each_byte(&mut self, bytes: &[u8]) -> Result<()> {
        let mut changed = Vec::from_slice(self.alloc, bytes)?;
        for (i, old) in bytes.iter().enumerate() {
            for value in [0, 255, old.wrapping_add(1), old.wrapping_sub(1)] {
                if let Some(byte) = changed.get_mut(i) {
                    *byte = value;
                }
                self.compare(changed.as_slice())?;
            }
            if let Some(byte) = changed.get_mut(i) {
                *byte = *old;
            }
        }
        Ok(())
    }

    /// Every front of the bytes, and the bytes with any one byte behind them.
    fn change_length(&mut self, bytes: &[u8]) -> Result<()> {
        self.compare(bytes)?;
        for end in 0..bytes.len() {
            self.compare(bytes.get(..end).unwrap_or(&[]))?;
        }
        for byte in 0..=255u8 {
            let mut longer = Vec::from_slice(self.alloc, bytes)?;
            longer.push(byte)?;
            self.compare(longer.as_slice())?;
        }
        Ok(())
    }
}

/// Reads the bytes with each byte changed, cut and added, and replies how many lists of bytes were read.
pub(crate) fn compare_readers(
    alloc: Global,
    bytes: &[u8],
    bucket: u32,
    name: u64,
) -> Result<String> {
    let mut place = [0; 12];
    for (at, byte) in bucket
        .to_be_bytes()
        .iter()
        .chain(&name.to_be_bytes())
        .enumerate()
    {
        if let Some(here) = place.get_mut(at) {
            *here = *byte;
        }
    }
    let mut readers = Readers {
        alloc,
        bucket,
        name,
        place,
        count: 0,
    };
    readers.change_each_byte(bytes)?;
    readers.change_length(bytes)?;
    shown(alloc, &readers.count)
}
