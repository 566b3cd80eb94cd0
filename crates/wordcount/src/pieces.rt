//! The files, read by pieces that cut no word, so that threads can share them and little lies in memory.

use crate::words::is_of_word;
use anyhow::{Result, bail};
use std::alloc::Global;
use std::collections::VecDeque;
use std::fs::File;
use std::io;
use std::io::Read;
use std::mem::replace;
use std::rt::Files;

/// The most bytes of a piece, and so of a word: as many as a key may have.
const MOST: usize = 65_535;

/// What is left of some files.
#[derive(Drop)]
pub struct Pieces<'a> {
    files: VecDeque<(&'a str, File)>,
    /// The beginning of the first file's next piece, which was read already.
    begun: Vec<u8>,
}

/// Reads on until the piece is full or the file ends.
fn fill(file: &mut File, piece: &mut Vec<u8>) -> io::Result<()> {
    let room = MOST.saturating_sub(piece.len());
    file.by_ref().take(room as u64).read_to_end(piece)?;
    Ok(())
}

impl<'a> Pieces<'a> {
    /// All of the files of these names. An error names the first that can't be opened.
    pub fn open<R: Files<File = File> + AllocGlobal>(
        rt: &R,
        names: &[&'a str],
    ) -> Result<Pieces<'a>> {
        let mut files = VecDeque::new(rt.alloc());
        for name in names {
            match File::open(rt, *name) {
                Ok(file) => files.push_back((*name, file))?,
                Err(fault) => bail!("{name}: {fault}"),
            }
        }
        Ok(Pieces {
            files,
            begun: Vec::new(rt.alloc()),
        })
    }

    /// The next piece, or none where all files are read. A run of more than 65,535 bytes of a word is cut, behind as many. An
    /// error names the file that can't be read, and is the last answer but none.
    pub fn next(&mut self, alloc: Global) -> Result<Option<Vec<u8>>> {
        let mut piece = replace(&mut self.begun, Vec::new(alloc));
        let Some(first) = self.files.front_mut() else {
            return Ok(None);
        };
        let name = first.0;
        if let Err(fault) = fill(&mut first.1, &mut piece) {
            self.files.clear();
            bail!("{name}: {fault}");
        }
        if piece.len() < MOST {
            self.files.pop_front();
        } else if let Some(gap) = piece.iter().rposition(|byte| !is_of_word(*byte)) {
            self.begun = piece.split_off(gap + 1)?;
        }
        Ok(Some(piece))
    }
}
