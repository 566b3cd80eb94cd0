//! What RANDOMKEY draws.

use anyhow::Result;
use std::alloc::Global;

/// A key, and how often it was drawn.
#[derive(Drop)]
struct Often {
    key: String,
    count: u64,
}

/// What was drawn, one key behind the other, and the time before that.
#[derive(Drop)]
pub struct Draws {
    alloc: Global,
    last: String,
    before: String,
    often: Vec<Often>,
}

/// The key in a reply `$1 a`.
fn key_in(reply: &str) -> &str {
    match reply.split_once(' ') {
        Some((_, key)) => key,
        None => reply,
    }
}

impl Draws {
    pub fn new(alloc: Global) -> Draws {
        Draws {
            alloc,
            last: String::new(alloc),
            before: String::new(alloc),
            often: Vec::new(alloc),
        }
    }

    /// Draws begin anew. What was drawn before is kept to compare.
    pub fn begin(&mut self) -> Result<()> {
        let mut before = String::new(self.alloc);
        before.push_str(self.last.as_str())?;
        self.before = before;
        self.last = String::new(self.alloc);
        self.often = Vec::new(self.alloc);
        Ok(())
    }

    /// How often this key was drawn, if it was.
    fn often_of(&mut self, key: &str) -> Option<&mut Often> {
        let place = self.often.iter().position(|one| one.key.as_str() == key)?;
        self.often.get_mut(place)
    }

    /// Counts what was drawn.
    pub fn add(&mut self, reply: &str) -> Result<()> {
        let key = key_in(reply);
        self.last.push_str(key)?;
        self.last.push(' ')?;
        if let Some(one) = self.often_of(key) {
            one.count = one.count.saturating_add(1);
            return Ok(());
        }
        let mut own = String::new(self.alloc);
        own.push_str(key)?;
        let place = self
            .often
            .iter()
            .position(|one| one.key.as_str() > key)
            .unwrap_or(self.often.len());
        let place = place.min(self.often.len());
        self.often.insert(place, Often { key: own, count: 1 })?;
        Ok(())
    }

    /// The keys that were drawn more than so often and less than so often, in their order.
    pub fn between(&self, above: u64, below: u64) -> Result<String> {
        let mut keys = String::new(self.alloc);
        for one in &self.often {
            if above < one.count && one.count < below {
                if !keys.is_empty() {
                    keys.push(' ')?;
                }
                keys.push_str(one.key.as_str())?;
            }
        }
        Ok(keys)
    }

    /// Whether the last draws were those before.
    pub fn are_alike(&self) -> bool {
        self.last.as_str() == self.before.as_str()
    }
}
