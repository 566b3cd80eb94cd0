//! A reply of the player: words with a blank between two.

use case_files::push_spelled;
use std::alloc::{AllocError, Global};

/// The words so far.
#[derive(Drop)]
pub(crate) struct Reply {
    text: String,
}

impl Reply {
    pub(crate) fn new(alloc: Global) -> Reply {
        Reply {
            text: String::new(alloc),
        }
    }

    fn part(&mut self) -> Result<(), AllocError> {
        if self.text.is_empty() {
            return Ok(());
        }
        self.text.push(' ')
    }

    /// Puts a word behind the others.
    pub(crate) fn put(&mut self, word: &str) -> Result<(), AllocError> {
        self.part()?;
        self.text.push_str(word)
    }

    /// Puts bytes, spelled as a word of a case file is.
    pub(crate) fn put_bytes(&mut self, bytes: &[u8]) -> Result<(), AllocError> {
        self.part()?;
        push_spelled(&mut self.text, bytes)
    }

    pub(crate) fn put_number(&mut self, number: u64) -> Result<(), AllocError> {
        self.part()?;
        write!(&mut self.text, "{number}")
    }

    pub(crate) fn put_signed(&mut self, number: i64) -> Result<(), AllocError> {
        self.part()?;
        write!(&mut self.text, "{number}")
    }

    /// Puts `NAME=` and the bytes.
    pub(crate) fn put_named(&mut self, name: &str, bytes: &[u8]) -> Result<(), AllocError> {
        self.put(name)?;
        self.text.push('=')?;
        push_spelled(&mut self.text, bytes)
    }

    /// Puts `NAME=` and the number.
    pub(crate) fn put_count(&mut self, name: &str, number: u64) -> Result<(), AllocError> {
        self.put(name)?;
        write!(&mut self.text, "={number}")
    }

    pub(crate) fn into_text(self) -> String {
        self.text
    }
}

/// A reply of one word.
pub(crate) fn one_word(alloc: Global, word: &str) -> Result<String, AllocError> {
    String::from_str(alloc, word)
}

/// `true` or `false`.
pub(crate) fn truth(alloc: Global, is_so: bool) -> Result<String, AllocError> {
    one_word(alloc, if is_so { "true" } else { "false" })
}
