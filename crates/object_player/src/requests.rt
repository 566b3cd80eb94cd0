//! Requests and replies of the protocol of Redis, as bytes.

use crate::numbers::Numbers;
use crate::replies;
use crate::world::{World, bytes, named, nothing, push_bytes, run, told, word};
use anyhow::{Result, bail};
use case_files::{Line, Playing};
use resp::{Limits, ParseFault, Parsed, Span, parse};
use std::alloc::Global;

/// The limits of what is read, and what was written.
#[derive(Drop)]
pub(crate) struct Protocol {
    pub(crate) alloc: Global,
    pub(crate) limits: Limits,
    pub(crate) out: Vec<u8>,
}

pub(crate) fn play(alloc: Global, first: &Line, playing: &mut Playing<'_>) -> Result<()> {
    let limits = Limits {
        arguments: named(first, "arguments", 3)?,
        bytes: named(first, "bytes", 10)?,
        line: named(first, "line", 20)?,
    };
    let mut world = Protocol {
        alloc,
        limits,
        out: Vec::new(alloc),
    };
    run(alloc, first, playing, &mut world);
    Ok(())
}

/// The bytes that lie so.
pub(crate) fn part(bytes: &[u8], span: Span) -> Result<&[u8]> {
    let parts = bytes.split_at_checked(span.from);
    match parts.and_then(|(_, rest)| rest.split_at_checked(span.len)) {
        Some((part, _)) => Ok(part),
        None => bail!("{} bytes from {} on are not there", span.len, span.from),
    }
}

/// So many bytes at the front.
pub(crate) fn front(bytes: &[u8], len: usize) -> Result<&[u8]> {
    match bytes.split_at_checked(len) {
        Some((front, _)) => Ok(front),
        None => bail!("there are no {len} bytes"),
    }
}

fn fault_text(fault: ParseFault) -> &'static str {
    match fault {
        ParseFault::ArrayLength => "array length",
        ParseFault::Mark => "mark",
        ParseFault::StringLength => "string length",
        ParseFault::StringEnd => "string end",
        ParseFault::LongLine => "long line",
        ParseFault::Quote => "quote",
        ParseFault::Control => "control",
    }
}

impl Protocol {
    /// What is read of the bytes, into a list that was not empty.
    fn parsed(&self, bytes: &[u8], spans: &mut Vec<Span>) -> Result<Parsed> {
        spans.clear();
        spans.push(Span { from: 7, len: 7 })?;
        Ok(parse(bytes, self.limits, spans)?)
    }

    /// What is read of the bytes, and the arguments of a request.
    fn parse(&self, bytes: &[u8]) -> Result<String> {
        let mut spans = Vec::new(self.alloc);
        match self.parsed(bytes, &mut spans)? {
            Parsed::Request { consumed } => {
                let mut out = format!(in self.alloc; "request of {consumed}:")?;
                for span in &spans {
                    out.push(' ')?;
                    push_bytes(&mut out, part(bytes, *span)?)?;
                }
                Ok(out)
            }
            Parsed::Incomplete { missing: 0 } => bail!("incomplete, and nothing is missing"),
            Parsed::Incomplete { .. } => Ok(String::from_str(self.alloc, "incomplete")?),
            Parsed::Malformed { at, fault } => {
                Ok(format!(in self.alloc; "malformed at {at}: {}", fault_text(fault))?)
            }
        }
    }

    /// At least one byte is missing, and no more than these.
    fn lacks(&self, bytes: &[u8], most: usize) -> Result<()> {
        match self.parsed(bytes, &mut Vec::new(self.alloc))? {
            Parsed::Incomplete { missing } if 0 < missing && missing <= most => Ok(()),
            _ => bail!("{} bytes are not incomplete, by up to {most}", bytes.len()),
        }
    }

    /// Reads each shorter beginning, which lacks no more than the rest, and replies how many there are.
    fn parse_prefixes(&self, line: &Line) -> Result<String> {
        let whole = word(line, 1)?;
        for end in 0..whole.len() {
            self.lacks(front(whole, end)?, whole.len().saturating_sub(end))?;
        }
        Ok(format!(in self.alloc; "{} incomplete", whole.len())?)
    }

    /// What is read of the bytes is what is read of as many of them as it speaks of.
    fn is_read_alike(&self, bytes: &[u8]) -> Result<()> {
        let mut spans = Vec::new(self.alloc);
        let parsed = self.parsed(bytes, &mut spans)?;
        match parsed {
            Parsed::Request { consumed } => {
                let again = self.parsed(front(bytes, consumed)?, &mut spans)?;
                let Some(before) = consumed.checked_sub(1) else {
                    bail!("a request of no bytes");
                };
                if again != parsed {
                    bail!("the request alone is read in another way");
                }
                self.lacks(front(bytes, before)?, 1)
            }
            Parsed::Incomplete { .. } => self.lacks(bytes, 100),
            Parsed::Malformed { at, .. } => {
                let end = at.saturating_add(1);
                if self.parsed(front(bytes, end)?, &mut spans)? != parsed {
                    bail!("the bytes up to the fault are read in another way");
                }
                self.lacks(front(bytes, at)?, usize::MAX)
            }
        }
    }

    /// Changes one byte so many times, mostly to one that the marks are, and puts it back each second time.
    fn change(&self, line: &Line) -> Result<String> {
        let mut changed = Vec::from_slice(self.alloc, word(line, 1)?)?;
        let mut numbers = Numbers::new(u64::from(named(line, "seed", 1)?));
        let is_reply = line.call() == "change_token";
        let marks = if is_reply {
            b"+-:$*019\r\n".as_slice()
        } else {
            b"*$-0123\r\n \"\x00".as_slice()
        };
        for _ in 0..named(line, "times", 1)? {
            let at = numbers.below(changed.len());
            let byte = match marks.get(numbers.below(marks.len().saturating_add(3))) {
                Some(mark) => *mark,
                None => numbers.byte(),
            };
            let old = match changed.get_mut(at) {
                Some(place) => std::mem::replace(place, byte),
                None => bail!("there is no byte to change"),
            };
            if is_reply {
                replies::is_read_alike(self.limits, changed.as_slice())?;
            } else {
                self.is_read_alike(changed.as_slice())?;
            }
            if let (Some(place), 0) = (changed.get_mut(at), numbers.below(2)) {
                *place = old;
            }
        }
        nothing(self.alloc)
    }
}

impl World for Protocol {
    fn call(&mut self, line: &Line) -> Result<String> {
        match line.call() {
            "parse" => self.parse(word(line, 1)?),
            "parse_prefixes" => self.parse_prefixes(line),
            "change" | "change_token" => self.change(line),
            "written" => told(self.alloc, self.out.as_slice()),
            "parse_token" => replies::parse(self.alloc, self.limits, word(line, 1)?),
            "token_prefixes" => replies::parse_prefixes(self.alloc, self.limits, word(line, 1)?),
            "push_nothing" | "push_no_array" => {
                replies::write(self.alloc, &mut self.out, line, &[])
            }
            _ => {
                let text = bytes(self.alloc, line, 1)?;
                replies::write(self.alloc, &mut self.out, line, text.as_slice())
            }
        }
    }
}
