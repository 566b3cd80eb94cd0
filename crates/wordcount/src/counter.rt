//! What each thread does: it takes the next piece, and raises the count of each of its words.

use crate::counts::raised;
use crate::pieces::Pieces;
use crate::words::first_word;
use anyhow::{Result, bail};
use far_map::{Calls, Text, Updated, Work, text};
use std::alloc::Global;
use std::sync::{Mutex, Wait};

/// What threads share: the pieces, of which each takes the next.
#[derive(Drop)]
pub struct Counting<'a> {
    pieces: Mutex<Pieces<'a>>,
}

impl<'a> Counting<'a> {
    pub fn new(pieces: Pieces<'a>) -> Counting<'a> {
        Counting {
            pieces: Mutex::new(pieces),
        }
    }
}

/// Raises the word's count. Where another thread was faster it is tried again, for as long as that is so.
fn raise<S: Calls<Text>, R: Wait>(rt: &R, alloc: Global, me: &mut S, word: &[u8]) -> Result<()> {
    let key = text(alloc, word)?;
    for _ in rt.forever() {
        match me.update(rt, &key, |found| raised(alloc, found)) {
            Ok(Updated::Set(_)) => return Ok(()),
            Ok(Updated::Left(_)) => bail!("memory"),
            Ok(Updated::Overtaken) => {}
            Err(refusal) => bail!("a word could not be counted: {refusal}"),
        }
    }
    unreachable!()
}

/// Raises the count of each word.
fn raise_all<S: Calls<Text>, R: Wait>(
    rt: &R,
    alloc: Global,
    me: &mut S,
    piece: &[u8],
) -> Result<()> {
    let mut rest = piece;
    while let Some((word, behind)) = first_word(rest) {
        raise(rt, alloc, me, word)?;
        rest = behind;
    }
    Ok(())
}

impl Work<Text> for Counting<'_> {
    type Out = Result<()>;

    fn work<S: Calls<Text>, R: Wait>(
        &self,
        rt: &R,
        alloc: Global,
        _worker: u32,
        me: &mut S,
    ) -> Result<()> {
        for _ in rt.forever() {
            let Some(mut piece) = self.pieces.lock(rt).next(alloc)? else {
                break;
            };
            piece.make_ascii_lowercase();
            raise_all(rt, alloc, me, piece.as_slice())?;
        }
        Ok(())
    }
}
