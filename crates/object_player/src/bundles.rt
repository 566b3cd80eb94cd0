//! Bundles of pairs: what is lent of them, in which order, and as lines.

use crate::values::Value;
use crate::world::{memory, named, nothing, push_bytes, refused_or, shown, text, unknown};
use anyhow::{Result, bail};
use case_files::{Line, Playing};
use far_object::{MOST_PAIRS, Object, Text};
use far_pairs::{Bundle, LentPair, in_key_order};
use run_lines::PairLines;
use std::alloc::Global;
use std::thread::Threads;

/// Bundles, the last of which is added to.
#[derive(Drop)]
struct Bundles<'r, R> {
    rt: &'r R,
    alloc: Global,
    bundles: Vec<Bundle<Text, Text>>,
}

pub(crate) fn play<R: Threads + Sync>(
    rt: &R,
    alloc: Global,
    first: &Line,
    playing: &mut Playing<'_>,
) -> Result<()> {
    let mut bundles = Vec::new(alloc);
    for _ in 0..named(first, "bundles", 1)? {
        bundles.push(Bundle::new(alloc))?;
    }
    let mut world = Bundles { rt, alloc, bundles };
    world.play_lines(first, playing);
    Ok(())
}

/// The object of the pairs that the line's words spell.
pub(crate) fn object_of<K: Value, V: Value>(alloc: Global, line: &Line) -> Result<Object<K, V>> {
    let mut object = Object::empty(alloc)?;
    let words = line.rest(1);
    for pair in words.chunks(2) {
        let [key, value] = pair else {
            bail!("a value is missing");
        };
        if object.count() >= MOST_PAIRS {
            bail!("the object is full");
        }
        let (key, value) = (
            K::of(alloc, key.as_slice())?,
            V::of(alloc, value.as_slice())?,
        );
        object = object.with(alloc, &key, &value)?;
    }
    Ok(object)
}

/// The pairs, a line for each: its key's bytes and its value's.
fn told(alloc: Global, lent: &[LentPair<'_>]) -> Result<String> {
    let mut out = String::new(alloc);
    for pair in lent {
        if !out.is_empty() {
            out.push('\n')?;
        }
        push_bytes(&mut out, pair.key())?;
        out.push(' ')?;
        push_bytes(&mut out, pair.value())?;
    }
    Ok(out)
}

impl<'r, R: Threads + Sync> Bundles<'r, R> {
    fn last(&self) -> Result<&Bundle<Text, Text>> {
        match self.bundles.last() {
            Some(bundle) => Ok(bundle),
            None => bail!("there is no bundle"),
        }
    }

    fn add(&mut self, line: &Line) -> Result<String> {
        let object = object_of::<Text, Text>(self.alloc, line)?;
        let Some(bundle) = self.bundles.last_mut() else {
            bail!("there is no bundle");
        };
        match bundle.add(&object) {
            Ok(()) => nothing(self.alloc),
            Err(_) => memory(self.alloc),
        }
    }

    /// Lends the pairs of all bundles into one list.
    fn lend(&self) -> Result<String> {
        let mut lent = Vec::new(self.alloc);
        for bundle in &self.bundles {
            if bundle.lend(&mut lent).is_err() {
                return memory(self.alloc);
            }
        }
        told(self.alloc, lent.as_slice())
    }

    /// Writes the last bundle again in order, and lends what was written.
    fn in_order(&self) -> Result<String> {
        let Ok(bundle) = self.last()?.in_order(self.alloc) else {
            return memory(self.alloc);
        };
        let mut lent = Vec::new(self.alloc);
        if bundle.lend(&mut lent).is_err() {
            return memory(self.alloc);
        }
        told(self.alloc, lent.as_slice())
    }

    /// The pairs of all bundles in the order of their keys, which have to lie in one list.
    fn in_key_order(&self) -> Result<String> {
        let Ok(lists) = in_key_order(self.rt, self.alloc, self.bundles.as_slice()) else {
            return memory(self.alloc);
        };
        match lists.as_slice() {
            [list] => told(self.alloc, list.as_slice()),
            _ => bail!("{} lists", lists.len()),
        }
    }

    /// The lines of all bundles' pairs, each bundle's made by a thread of its own.
    fn lines(&self) -> Result<String> {
        let mut lists = Vec::new(self.alloc);
        for bundle in &self.bundles {
            let mut lent = Vec::new(self.alloc);
            bundle.lend(&mut lent)?;
            lists.push(lent)?;
        }
        let Ok(lines) = PairLines::of(self.rt, self.alloc, lists.as_slice()) else {
            return memory(self.alloc);
        };
        let mut out = Vec::new(self.alloc);
        lines.write_contents(&mut out)?;
        match str::from_utf8(out.as_slice()) {
            Ok(lines) => text(self.alloc, lines.trim_ascii()),
            Err(_) => bail!("the lines are no text"),
        }
    }
}

// (a `World` promises nothing of `R`, by whose threads lines are made)
impl<'r, R: Threads + Sync> Bundles<'r, R> {
    /// Plays the rest of the case, as `run` does.
    fn play_lines(&mut self, first: &Line, playing: &mut Playing<'_>) {
        playing.tell(first, Ok(String::new(self.alloc)));
        for _ in 0..playing.case().lines.len() {
            let Some(line) = playing.next() else {
                return;
            };
            for _ in 0..2 {
                let reply = refused_or(self.alloc, self.call(line));
                if !playing.tell(line, reply) {
                    break;
                }
            }
        }
    }

    fn call(&mut self, line: &Line) -> Result<String> {
        match line.call() {
            "bundle" => {
                self.bundles.push(Bundle::new(self.alloc))?;
                nothing(self.alloc)
            }
            "add" => self.add(line),
            "len" => shown(self.alloc, &self.last()?.len()),
            "lend" => self.lend(),
            "in_order" => self.in_order(),
            "in_key_order" => self.in_key_order(),
            "lines" => self.lines(),
            _ => unknown(line),
        }
    }
}
