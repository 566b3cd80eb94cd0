//! Pairs as they are told: in key order, or only how many there are.

use crate::replies::{OUT_OF_MEMORY, Said, plain};
use crate::words::{push_bytes, read_number};
use far_map::{Text, Value};
use far_object::FarObject;
use std::alloc::Global;

/// Pairs that a visitor was handed, or that a run left.
#[derive(Drop)]
pub struct Pairs<V: Value> {
    pairs: Vec<(Text, V)>,
    /// Whether one is missing, since there was no memory for it.
    is_short: bool,
}

impl<V: Value> Pairs<V> {
    pub fn new(alloc: Global) -> Pairs<V> {
        Pairs {
            pairs: Vec::new(alloc),
            is_short: false,
        }
    }

    /// These pairs.
    pub fn of(pairs: Vec<(Text, V)>) -> Pairs<V> {
        Pairs {
            pairs,
            is_short: false,
        }
    }

    pub fn add(&mut self, key: Text, value: V) {
        if self.pairs.push((key, value)).is_err() {
            self.is_short = true;
        }
    }

    /// How many there are, and the sum of the values that are numbers.
    pub fn sum(&self) -> Sum {
        let mut sum = Sum::new();
        for pair in &self.pairs {
            sum.add(pair.1.as_bytes());
        }
        sum
    }

    /// The pairs as they came, as `KEY=VALUE` each.
    pub fn in_turn(&self, alloc: Global) -> Said {
        if self.is_short {
            return Err(OUT_OF_MEMORY);
        }
        if self.pairs.is_empty() {
            return plain(alloc, "no pairs");
        }
        let mut out = String::new(alloc);
        for pair in &self.pairs {
            if !out.is_empty() {
                out.push(' ')?;
            }
            push_bytes(&mut out, pair.0.as_bytes())?;
            out.push('=')?;
            push_bytes(&mut out, pair.1.as_bytes())?;
        }
        Ok(out)
    }

    /// The same in key order.
    pub fn said(mut self, alloc: Global) -> Said {
        self.pairs
            .sort_unstable_by(|one, other| one.0.compare(&other.0));
        self.in_turn(alloc)
    }
}

/// How many pairs there are, and the sum of their values.
#[derive(Clone, Copy)]
pub struct Sum {
    count: u32,
    sum: u32,
}

impl Sum {
    pub fn new() -> Sum {
        Sum { count: 0, sum: 0 }
    }

    /// Adds a pair with this value.
    pub fn add(&mut self, value: &[u8]) {
        self.count = self.count.saturating_add(1);
        self.sum = self.sum.saturating_add(read_number(value));
    }

    pub fn counted(&self, alloc: Global) -> Said {
        Ok(format!(in alloc; "{} pairs", self.count)?)
    }

    pub fn said(&self, alloc: Global) -> Said {
        Ok(format!(in alloc; "{} pairs of {}", self.count, self.sum)?)
    }
}
