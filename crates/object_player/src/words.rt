//! The words of buckets: names and places.

use crate::world::{World, number, run, shown, unknown};
use anyhow::{Result, bail};
use case_files::{Line, Playing};
use std::alloc::Global;
use table_core::word::{EMPTY_PLACE, FAR_PLACE, name_of, pack, place_of};

#[derive(Drop)]
struct Words {
    alloc: Global,
}

pub(crate) fn play(alloc: Global, first: &Line, playing: &mut Playing<'_>) -> Result<()> {
    run(alloc, first, playing, &mut Words { alloc });
    Ok(())
}

/// A place by its number, or `empty` and `far`.
fn place(line: &Line, at: usize) -> Result<u64> {
    match line.word(at) {
        Some(b"empty") => Ok(u64::from(EMPTY_PLACE)),
        Some(b"far") => Ok(u64::from(FAR_PLACE)),
        _ => number(line, at),
    }
}

fn packed(line: &Line) -> Result<u64> {
    let (name, place) = (number(line, 1)?, place(line, 2)?);
    if name < 1 << 40 && place < 1 << 24 {
        return Ok(pack(name, place as u32));
    }
    bail!("a name has 40 bits, and a place 24")
}

impl World for Words {
    fn call(&mut self, line: &Line) -> Result<String> {
        match line.call() {
            "pack" => shown(self.alloc, &packed(line)?),
            "name_of" => shown(self.alloc, &name_of(number(line, 1)?)),
            "place_of" => shown(self.alloc, &place_of(number(line, 1)?)),
            "place" => shown(self.alloc, &place(line, 1)?),
            _ => unknown(line),
        }
    }
}
