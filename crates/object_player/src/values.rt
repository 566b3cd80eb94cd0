//! Keys and values as words of a case: numbers, texts and blobs.

use crate::world::push_bytes;
use anyhow::{Result, bail};
use far_blob::Blob;
use far_object::{FarObject, Text};
use std::alloc::Global;

/// A type of keys or values that a case can spell.
pub(crate) trait Value: FarObject {
    /// The value that the word spells. The error's text is that of the type's own fault, if it has one.
    fn of(alloc: Global, word: &[u8]) -> Result<Self>;

    /// The same, of bytes that are handed over.
    fn of_vec(alloc: Global, bytes: Vec<u8>) -> Result<Self>;

    /// The value's bytes, taken out of it.
    fn into_vec(self, alloc: Global) -> Result<Vec<u8>>;

    /// Puts the value behind a reply.
    fn tell(&self, out: &mut String) -> Result<()>;
}

impl Value for u64 {
    fn of(_alloc: Global, word: &[u8]) -> Result<Self> {
        let Ok(text) = str::from_utf8(word) else {
            bail!("no number");
        };
        match text.parse::<u64>() {
            Ok(number) => Ok(number),
            Err(_) => bail!("no number"),
        }
    }

    fn of_vec(alloc: Global, bytes: Vec<u8>) -> Result<Self> {
        <u64 as Value>::of(alloc, bytes.as_slice())
    }

    fn into_vec(self, _alloc: Global) -> Result<Vec<u8>> {
        bail!("a number lies in no list of bytes")
    }

    fn tell(&self, out: &mut String) -> Result<()> {
        let alloc = *out.allocator();
        out.push_str(format!(in alloc; "{}", *self)?.as_str())?;
        Ok(())
    }
}

impl Value for Text {
    fn of(alloc: Global, word: &[u8]) -> Result<Self> {
        match Text::new(alloc, word) {
            Ok(text) => Ok(text),
            Err(fault) => bail!("{fault}"),
        }
    }

    fn of_vec(alloc: Global, bytes: Vec<u8>) -> Result<Self> {
        <Text as Value>::of(alloc, bytes.as_slice())
    }

    fn into_vec(self, alloc: Global) -> Result<Vec<u8>> {
        Ok(Vec::from_slice(alloc, self.as_bytes())?)
    }

    fn tell(&self, out: &mut String) -> Result<()> {
        push_bytes(out, self.as_bytes())
    }
}

impl Value for Blob {
    fn of(alloc: Global, word: &[u8]) -> Result<Self> {
        match Blob::new(alloc, word) {
            Ok(blob) => Ok(blob),
            Err(fault) => bail!("{fault}"),
        }
    }

    fn of_vec(_alloc: Global, bytes: Vec<u8>) -> Result<Self> {
        match Blob::from_vec(bytes) {
            Ok(blob) => Ok(blob),
            Err(fault) => bail!("{fault}"),
        }
    }

    fn into_vec(self, _alloc: Global) -> Result<Vec<u8>> {
        Ok(self.into_bytes())
    }

    fn tell(&self, out: &mut String) -> Result<()> {
        push_bytes(out, self.as_bytes())
    }
}
