//! Numbers in a row, as keys: what a call of several keys is given.

use crate::replies::Stop;
use crate::words::{number_at, number_named, times_at};
use case_files::Line;

/// So many numbers from one on. Each `step`-th, from the first on, is a key with a value, that is so much above its number.
#[derive(Clone, Copy, Debug, PartialEq, Eq)]
pub struct Numbers {
    pub from: u32,
    pub count: u32,
    step: u32,
    above: u32,
}

impl Numbers {
    /// The numbers of a line: `FROM COUNT step=1 above=0`.
    pub fn of(line: &Line) -> Result<Numbers, Stop> {
        let numbers = Numbers {
            from: number_at(line, 1)?,
            count: times_at(line, 2)?,
            step: number_named(line, "step", 1)?,
            above: number_named(line, "above", 0)?,
        };
        if numbers.step == 0 {
            return Err(Stop::Mistake("step= is 1 or more"));
        }
        Ok(numbers)
    }

    /// The key at this place, counted from 0.
    pub fn key(&self, place: u32) -> u32 {
        self.from.wrapping_add(place)
    }

    /// The value of the key at this place.
    pub fn value(&self, place: u32) -> Option<u32> {
        if self.step != 0 && place % self.step == 0 {
            Some(self.key(place).wrapping_add(self.above))
        } else {
            None
        }
    }
}
