//! Replies to the same request, told together.

use anyhow::Result;
use std::alloc::{AllocError, Global};

/// How a reply goes on from the one before.
#[derive(Clone, Copy, PartialEq, Eq)]
enum Step {
    /// It is the same.
    Same,
    /// It is a number, and one more.
    Rising,
}

/// What was replied so far: replies that go on in the same way are told as one.
#[derive(Drop)]
pub struct Summary {
    alloc: Global,
    told: String,
    first: String,
    last: String,
    /// How many replies there are from the first on, and how they go on.
    count: u64,
    step: Option<Step>,
}

/// The number of a reply that is one.
fn number_in(reply: &str) -> Option<i64> {
    reply.strip_prefix(':')?.parse::<i64>().ok()
}

fn step_of(last: &str, next: &str) -> Option<Step> {
    if last == next {
        return Some(Step::Same);
    }
    let after = number_in(last)?.checked_add(1)?;
    if number_in(next)? == after {
        Some(Step::Rising)
    } else {
        None
    }
}

fn owned(alloc: Global, text: &str) -> Result<String, AllocError> {
    let mut own = String::new(alloc);
    own.push_str(text)?;
    Ok(own)
}

impl Summary {
    pub fn new(alloc: Global) -> Summary {
        Summary {
            alloc,
            told: String::new(alloc),
            first: String::new(alloc),
            last: String::new(alloc),
            count: 0,
            step: None,
        }
    }

    /// Tells the replies from the first on.
    fn tell(&mut self) -> Result<(), AllocError> {
        let (alloc, count, step) = (self.alloc, self.count, self.step);
        let (first, last) = (self.first.as_str(), self.last.as_str());
        if count == 0 {
            return Ok(());
        }
        if !self.told.is_empty() {
            self.told.push_str(", ")?;
        }
        match step {
            None => self.told.push_str(first),
            Some(Step::Same) => {
                let text = format!(in alloc; "{count} times {first}")?;
                self.told.push_str(text.as_str())
            }
            Some(Step::Rising) => {
                let text = format!(in alloc; "{first} to {last}")?;
                self.told.push_str(text.as_str())
            }
        }
    }

    pub fn add(&mut self, reply: &str) -> Result<()> {
        let step = step_of(self.last.as_str(), reply);
        let goes_on = self.count > 0 && step.is_some();
        if goes_on && (self.count == 1 || self.step == step) {
            self.step = step;
            self.count = self.count.saturating_add(1);
        } else {
            self.tell()?;
            self.first = owned(self.alloc, reply)?;
            self.count = 1;
            self.step = None;
        }
        self.last = owned(self.alloc, reply)?;
        Ok(())
    }

    /// A reply as it is; `N times REPLY` where N one behind the other are alike, `:1 to :N` where each number is one more.
    pub fn end(self) -> Result<String> {
        let mut whole = self;
        whole.tell()?;
        Ok(owned(whole.alloc, whole.told.as_str())?)
    }
}
