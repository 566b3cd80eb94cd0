//! Digests of bytes, under keys that are drawn for the case.

use crate::world::{World, bytes, flag, run, unknown};
use anyhow::Result;
use case_files::{Line, Playing};
use digests::{are_same, digest_of};
use std::alloc::Global;
use std::hash::RandomState;
use std::random::RandomSource;
use std::snapshot::Snapshot;

/// The keys of two devices.
#[derive(Drop)]
struct Keys {
    alloc: Global,
    one: RandomState,
    other: RandomState,
}

impl World for Keys {
    fn call(&mut self, line: &Line) -> Result<String> {
        match line.call() {
            "is_same" => {
                let written = bytes(self.alloc, line, 1)?;
                let given = bytes(self.alloc, line, 2)?;
                let digest = digest_of(&self.one, &written);
                let Ok(len) = u32::try_from(written.len()) else {
                    return unknown(line);
                };
                let kept = Snapshot::of(&written);
                let same = are_same(&self.one, &given, len, digest, &kept);
                flag(self.alloc, same)
            }
            "repeats" => {
                let written = bytes(self.alloc, line, 1)?;
                let first = digest_of(&self.one, &written);
                flag(self.alloc, first == digest_of(&self.one, &written))
            }
            "differs" => {
                let written = bytes(self.alloc, line, 1)?;
                let first = digest_of(&self.one, &written);
                flag(self.alloc, first != digest_of(&self.other, &written))
            }
            _ => unknown(line),
        }
    }
}

pub(crate) fn play<R: RandomSource>(
    rt: &R,
    alloc: Global,
    first: &Line,
    playing: &mut Playing<'_>,
) -> Result<()> {
    let mut world = Keys {
        alloc,
        one: RandomState::new(rt)?,
        other: RandomState::new(rt)?,
    };
    run(alloc, first, playing, &mut world);
    Ok(())
}
