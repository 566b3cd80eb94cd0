//! So many pairs that threads sort them, of numbers as keys and values.

use crate::world::{World, flag, number, run, shown, unknown};
use anyhow::{Result, bail};
use case_files::{Line, Playing};
use far_object::Object;
use far_pairs::{Bundle, LentPair, in_key_order};
use std::alloc::Global;
use std::thread::Threads;

/// How many pairs there are. It is a prime number, so that what `mixed` makes of the numbers below it is these numbers.
const COUNT: u64 = 10_007;

/// A number below the count for each such number, with neighbours far apart.
fn mixed(number: u64) -> u64 {
    number.wrapping_mul(7919) % COUNT
}

/// The lists of pairs, in the order of their keys.
#[derive(Drop)]
struct Lists<'a> {
    alloc: Global,
    lists: Vec<Vec<LentPair<'a>>>,
}

pub(crate) fn play<R: Threads + Sync>(
    rt: &R,
    alloc: Global,
    first: &Line,
    playing: &mut Playing<'_>,
) -> Result<()> {
    let bundles = match first.number_named("keys", COUNT) {
        Some(COUNT) => apart(alloc)?,
        Some(keys) if keys != 0 => alike(alloc, keys)?,
        _ => bail!("keys= is how many keys there are"),
    };
    let lists = in_key_order(rt, alloc, bundles.as_slice())?;
    run(alloc, first, playing, &mut Lists { alloc, lists });
    Ok(())
}

/// Puts the pair of these numbers behind the bundle's others.
fn add(alloc: Global, bundle: Option<&mut Bundle<u64, u64>>, key: u64, value: u64) -> Result<()> {
    let Some(bundle) = bundle else {
        bail!("there is no bundle");
    };
    bundle.add(&Object::of_pair(alloc, &key, &value)?)?;
    Ok(())
}

fn two_bundles(alloc: Global) -> Result<Vec<Bundle<u64, u64>>> {
    let mut bundles = Vec::new(alloc);
    bundles.push(Bundle::new(alloc))?;
    bundles.push(Bundle::new(alloc))?;
    Ok(bundles)
}

/// Pairs of a key each, in two bundles in turn. Each value is its key's complement.
fn apart(alloc: Global) -> Result<Vec<Bundle<u64, u64>>> {
    let mut bundles = two_bundles(alloc)?;
    for number in 0..COUNT {
        let key = mixed(number);
        add(alloc, bundles.get_mut((number % 2) as usize), key, !key)?;
    }
    Ok(bundles)
}

/// Pairs of few keys. The values rise in the order in which they are added, first to the one bundle and then to the other.
fn alike(alloc: Global, keys: u64) -> Result<Vec<Bundle<u64, u64>>> {
    let mut bundles = two_bundles(alloc)?;
    for value in 0..COUNT {
        let at = if value < 5000 { 0 } else { 1 };
        let key = if keys == 0 { 0 } else { mixed(value) % keys };
        add(alloc, bundles.get_mut(at), key, value)?;
    }
    Ok(bundles)
}

impl<'a> Lists<'a> {
    /// How many pairs all lists have.
    fn count(&self) -> u64 {
        let mut count = 0u64;
        for list in &self.lists {
            count = count.saturating_add(list.len() as u64);
        }
        count
    }

    /// Whether each list has so many pairs, below the second number.
    fn are_alike(&self, least: u64, end: u64) -> bool {
        for list in &self.lists {
            let len = list.len() as u64;
            if len < least || len >= end {
                return false;
            }
        }
        true
    }

    /// Whether the pairs are the numbers in their order, each beside its complement.
    fn are_numbers(&self) -> bool {
        let mut at = 0u64;
        for list in &self.lists {
            for pair in list {
                let (key, value) = (at.to_be_bytes(), (!at).to_be_bytes());
                if pair.key() != key.as_slice() || pair.value() != value.as_slice() {
                    return false;
                }
                at = at.saturating_add(1);
            }
        }
        true
    }

    /// Whether the pairs rise, by their keys and then by their values.
    fn rise(&self) -> bool {
        let mut last: (&[u8], &[u8]) = (&[], &[]);
        for list in &self.lists {
            for pair in list {
                let next = (pair.key(), pair.value());
                if !(last < next) {
                    return false;
                }
                last = next;
            }
        }
        true
    }
}

impl<'a> World for Lists<'a> {
    fn call(&mut self, line: &Line) -> Result<String> {
        match line.call() {
            "lists" => shown(self.alloc, &self.lists.len()),
            "count" => shown(self.alloc, &self.count()),
            "each_has" => flag(
                self.alloc,
                self.are_alike(number(line, 1)?, number(line, 2)?),
            ),
            "are_numbers" => flag(self.alloc, self.are_numbers()),
            "rise" => flag(self.alloc, self.rise()),
            _ => unknown(line),
        }
    }
}
