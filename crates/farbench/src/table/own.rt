//! One thread's calls on a table.

use super::Table;
use crate::stopwatch::Runner;
use anyhow::{Result, bail};
use far_object::Text;
use hash_table::{Caller, Refusal};
use std::alloc::Global;
use std::result;
use std::sync::Wait;
use version_words::Naming;

/// Bytes of a value.
const VALUE: usize = 64;

/// What is called with each key in turn.
#[derive(Clone, Copy)]
pub enum Call {
    /// A get from a frame.
    Get,
    /// A get from a frame whose value is looked at where it lies.
    Scope,
    /// A put, and the removal of the version that it ends.
    Put,
    /// The same, and the caller owns the frame that it empties.
    Recycle,
    /// The object of the frame of this number goes to the device, and the frame becomes free.
    SwapOut,
    /// A get from the device.
    ReadThrough,
    /// The bucket's object comes back into a frame, and goes from the device.
    Fetch,
}

impl Call {
    // Whether it may leave a spare, which is then reclaimed.
    fn leaves_spare(self) -> bool {
        !matches!(&self, Call::Get | Call::Scope | Call::ReadThrough)
    }
}

fn is_found(found: result::Result<Option<Text>, Refusal>) -> bool {
    match found {
        Ok(found) => found.is_some(),
        Err(_) => false,
    }
}

/// A caller with keys of its own.
#[derive(Drop)]
pub struct Own<J: Naming> {
    alloc: Global,
    caller: Caller<u64, Text, J>,
    keys: Vec<u64>,
    at: usize,
    value: Text,
    call: Call,
}

impl<J: Naming> Own<J> {
    pub fn new(alloc: Global, table: &Table<J>, keys: Vec<u64>, call: Call) -> Result<Own<J>> {
        let value = Text::new(alloc, &[7; VALUE])?;
        let Ok(mut caller) = table.enter() else {
            bail!("no pass is left");
        };
        if matches!(&call, Call::Recycle) {
            caller.recycle();
        }
        Ok(Own {
            alloc,
            caller,
            keys,
            at: 0,
            value,
            call,
        })
    }

    // Whether a scope shows something.
    fn scope(&mut self, table: &Table<J>, key: u64) -> bool {
        match table.open_scope(&mut self.caller, &key) {
            Ok(Some(scope)) => {
                let some = !scope.bytes().is_empty();
                scope.close();
                some
            }
            _ => false,
        }
    }

    // Reclaims the oldest spare, if one waits.
    fn reclaim<R: Wait>(&mut self, rt: &R, table: &Table<J>) {
        if let Some(spare) = self.caller.take_spare() {
            let _ = table.reclaim(rt, &mut self.caller, spare);
        }
    }

    // Makes the call, and says whether it was done.
    fn make<R: Wait>(&mut self, rt: &R, table: &Table<J>, key: u64) -> bool {
        let (alloc, caller) = (self.alloc, &mut self.caller);
        match self.call {
            Call::Get => is_found(table.try_get(alloc, caller, &key)),
            Call::Scope => self.scope(table, key),
            Call::Put | Call::Recycle => table.try_put(alloc, caller, &key, &self.value).is_ok(),
            Call::SwapOut => table.swap_out(rt, caller, u32::try_from(key).unwrap_or(u32::MAX))
                == Ok(true),
            Call::ReadThrough => is_found(table.read_through(rt, alloc, caller, &key)),
            Call::Fetch => table.fetch(rt, alloc, caller, &key) == Ok(true),
        }
    }
}

/// Gives each of the keys a value.
pub fn put_all<R: Wait, J: Naming>(
    rt: &R,
    alloc: Global,
    table: &Table<J>,
    keys: &[u64],
) -> Result<()> {
    let mut own = Own::new(alloc, table, Vec::new(alloc), Call::Put)?;
    for key in keys {
        if !own.make(rt, table, *key) {
            bail!("a put was refused");
        }
    }
    Ok(())
}

impl<J: Naming> Runner<Table<J>> for Own<J> {
    fn call<R: Wait>(&mut self, rt: &R, table: &Table<J>, _number: u32) -> bool {
        let Some(key) = self.keys.get(self.at).copied() else {
            return false;
        };
        self.at = self.at.wrapping_add(1);
        if self.at >= self.keys.len() {
            self.at = 0;
        }
        let done = self.make(rt, table, key);
        if self.call.leaves_spare() {
            self.reclaim(rt, table);
        }
        done
    }

    fn end<R: Wait>(&mut self, _rt: &R, table: &Table<J>) {
        table.stop_recycling(&mut self.caller);
    }
}
