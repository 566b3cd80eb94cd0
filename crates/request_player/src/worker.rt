//! The opening `packets`: which packets a worker writes behind each that comes.

use crate::manners::manner_of;
use crate::mistake::{Mistake, WORDS};
use crate::packet::{
    DATA, OPEN, Packet, bytes_of, push_line, push_packet, push_packets, split_packet,
};
use crate::run::{Ended, Ran, Serving, run};
use case_files::{Line, spelled};
use resp::Limits;
use std::alloc::Global;

/// The most bytes of the text that is said to LONG.
const LONGEST: u64 = 1 << 22;

/// A worker, as far as its packets came.
#[derive(Drop)]
pub(crate) struct Worker {
    alloc: Global,
    serving: Serving,
    /// The packets so far.
    came: Vec<u8>,
    /// What it wrote.
    written: Vec<u8>,
    is_over: bool,
}

fn limit(line: &Line, name: &str, otherwise: u64) -> Result<u32, Mistake> {
    let number = line.number_named(name, otherwise).ok_or(WORDS)?;
    u32::try_from(number).ok().ok_or(WORDS)
}

/// What the opening's words choose.
fn serving_of(line: &Line) -> Result<Serving, Mistake> {
    let limits = Limits {
        arguments: limit(line, "arguments", 16)?,
        bytes: limit(line, "bytes", 100)?,
        line: limit(line, "line", 64)?,
    };
    let one = manner_of(line.named("service").unwrap_or(b"echo")).ok_or(WORDS)?;
    let other = match line.named("then") {
        Some(name) => Some(manner_of(name).ok_or(WORDS)?),
        None => None,
    };
    let long = line.number_named("long", 0).ok_or(WORDS)?;
    if long > LONGEST {
        return Err(WORDS);
    }
    Ok(Serving {
        limits,
        one,
        other,
        long: long as usize,
    })
}

impl Worker {
    pub(crate) fn new(alloc: Global, line: &Line) -> Result<Worker, Mistake> {
        Ok(Worker {
            alloc,
            serving: serving_of(line)?,
            came: Vec::new(alloc),
            written: Vec::new(alloc),
            is_over: false,
        })
    }

    /// What the worker wrote behind what it had written before, and how it ended.
    fn push_ran(&self, ran: &Ran, out: &mut String) -> Result<(), Mistake> {
        if let Ended::Fault(fault) = ran.ended {
            write!(out, "{fault}")?;
            return Ok(());
        }
        let Some(behind) = ran.written.as_slice().strip_prefix(self.written.as_slice()) else {
            return Err(Mistake::Said("the worker wrote something else before"));
        };
        push_packets(self.alloc, out, behind)?;
        if ran.ended == Ended::Left {
            if !out.is_empty() {
                out.push('\n')?;
            }
            out.push_str("left")?;
        }
        Ok(())
    }

    /// Lets the line's packet come. The worker is run from its beginning each time: what it writes behind this packet is what
    /// it did not write without it.
    fn come(&mut self, line: &Line) -> Result<String, Mistake> {
        let mut came = Vec::from_slice(self.alloc, self.came.as_slice())?;
        push_line(self.alloc, &mut came, line)?;
        let ran = run(self.alloc, self.serving, came.as_slice())?;
        let mut out = String::new(self.alloc);
        self.push_ran(&ran, &mut out)?;
        self.is_over = ran.ended != Ended::Over;
        self.written = ran.written;
        self.came = came;
        Ok(out)
    }

    /// What one connection is sent whose bytes come in two packets, cut at this place.
    fn data_cut(&self, whole: &[u8], at: usize) -> Result<Vec<u8>, Mistake> {
        let (before, behind) = whole.split_at_checked(at).ok_or(WORDS)?;
        let mut came = Vec::new(self.alloc);
        for (kind, bytes) in [(OPEN, b"".as_slice()), (DATA, before), (DATA, behind)] {
            let connection = 0;
            push_packet(
                &mut came,
                Packet {
                    kind,
                    connection,
                    bytes,
                },
            )?;
        }
        let ran = run(self.alloc, self.serving, came.as_slice())?;
        let mut data = Vec::new(self.alloc);
        let mut rest = ran.written.as_slice();
        for _ in 0..ran.written.len() {
            let Some((packet, behind)) = split_packet(rest) else {
                break;
            };
            if packet.kind == DATA {
                data.extend_from_slice(packet.bytes)?;
            }
            rest = behind;
        }
        Ok(data)
    }

    /// What a connection of a worker of its own is sent, cut at each place in turn, where it is the same each time.
    fn cuts(&self, line: &Line) -> Result<String, Mistake> {
        let whole = bytes_of(self.alloc, line, 1)?;
        let first = self.data_cut(whole.as_slice(), 0)?;
        for at in 0..whole.len() {
            let data = self.data_cut(whole.as_slice(), at)?;
            if data.as_slice() != first.as_slice() {
                let found = spelled(self.alloc, data.as_slice())?;
                return Ok(format!(in self.alloc; "{found} where it is cut at {at}")?);
            }
        }
        Ok(spelled(self.alloc, first.as_slice())?)
    }

    pub(crate) fn call(&mut self, line: &Line) -> Result<String, Mistake> {
        if line.call() == "cuts" {
            return self.cuts(line);
        }
        if self.is_over {
            return Err(Mistake::Said("the worker has ended"));
        }
        self.come(line)
    }
}
