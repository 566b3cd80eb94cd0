//! Peers of a device over a store: one that is a store, and one that replies what a case says.

use resp::{
    Limits, Parsed, Span, parse, push_failure, push_nothing, push_number, push_simple, push_string,
};
use std::alloc::{AllocError, Global};
use std::io::{Error, ErrorKind, Read, Result, Write};

/// A peer that gives one reply after another, whatever it is asked, and the end behind the last.
#[derive(Drop)]
pub(crate) struct Peer {
    pub(crate) replies: Vec<Vec<u8>>,
    /// Replies to each request of a name, before the others.
    pub(crate) named: Vec<(Vec<u8>, Vec<u8>)>,
    /// How many requests came, and how many bytes of the reply to the last were given.
    turn: usize,
    given: usize,
    pub(crate) asked: Vec<u8>,
    /// Where the last request begins in that, and where the next one.
    last: usize,
    next: usize,
    /// The most bytes of a read and of a write.
    step: usize,
    /// How each write fails, and each read where no byte is left.
    pub(crate) write_fails: Option<ErrorKind>,
    pub(crate) read_fails: Option<ErrorKind>,
    /// Whether the first and then each second read is interrupted.
    pub(crate) interrupts: bool,
    is_interrupted: bool,
    /// How often it was read, written to and flushed.
    pub(crate) calls: u64,
}

impl Peer {
    pub(crate) fn new(alloc: Global, step: usize) -> Peer {
        Peer {
            replies: Vec::new(alloc),
            named: Vec::new(alloc),
            last: 0,
            next: 0,
            turn: 0,
            given: 0,
            asked: Vec::new(alloc),
            step,
            write_fails: None,
            read_fails: None,
            interrupts: false,
            is_interrupted: false,
            calls: 0,
        }
    }
}

impl Peer {
    /// The reply to the last request.
    fn reply(&self) -> &[u8] {
        let request = self.asked.get(self.last..).unwrap_or(&[]);
        for (name, reply) in &self.named {
            // Behind the count of the arguments, and the length of the name, which has three letters.
            if request.get(8..11) == Some(name.as_slice()) {
                return reply.as_slice();
            }
        }
        match self.replies.get(self.turn.wrapping_sub(1)) {
            Some(reply) => reply.as_slice(),
            None => &[],
        }
    }
}

impl Read for Peer {
    fn read(&mut self, buf: &mut [u8]) -> Result<usize> {
        self.calls = self.calls.saturating_add(1);
        self.is_interrupted = self.interrupts && !self.is_interrupted;
        if self.is_interrupted {
            return Err(Error::from(ErrorKind::Interrupted));
        }
        let most = buf.len().min(self.step);
        let mut rest = self.reply().get(self.given..).unwrap_or(&[]);
        if let (Some(kind), []) = (self.read_fails, rest) {
            return Err(Error::from(kind));
        }
        let count = rest.read(&mut buf[..most])?;
        self.given = self.given.saturating_add(count);
        Ok(count)
    }
}

impl Write for Peer {
    fn write(&mut self, buf: &[u8]) -> Result<usize> {
        self.calls = self.calls.saturating_add(1);
        if let Some(kind) = self.write_fails {
            return Err(Error::from(kind));
        }
        let most = buf.len().min(self.step);
        self.asked.extend_from_slice(&buf[..most])?;
        Ok(most)
    }

    fn flush(&mut self) -> Result<()> {
        self.calls = self.calls.saturating_add(1);
        self.turn = self.turn.saturating_add(1);
        self.last = self.next;
        self.next = self.asked.len();
        self.given = 0;
        Ok(())
    }
}

/// What is wrong with some replies of a store.
#[derive(Clone, Copy, PartialEq, Eq)]
pub(crate) enum PeerFault {
    /// It replies an error, and does nothing.
    Refuses,
    /// It has the key no more that is asked for.
    Forgets,
    /// What it gives has one bit flipped.
    Flips,
}

/// What a request may have.
const LIMITS: Limits = Limits {
    arguments: 3,
    bytes: 1 << 20,
    line: 0,
};

/// A store in the process, which gives its replies in pieces of so many bytes at most.
#[derive(Drop)]
pub(crate) struct Store {
    alloc: Global,
    objects: Vec<(Vec<u8>, Vec<u8>)>,
    asked: Vec<u8>,
    spans: Vec<Span>,
    coming: Vec<u8>,
    given: usize,
    step: usize,
    /// The replies that can have the fault, and whose number this divides, have it; 0 for none.
    every: u64,
    fault: PeerFault,
    turns: u64,
}

/// The argument of this number.
fn argument<'a>(bytes: &'a [u8], spans: &[Span], at: usize) -> &'a [u8] {
    match spans.get(at) {
        Some(span) => {
            let end = span.from.wrapping_add(span.len);
            bytes.get(span.from..end).unwrap_or(&[])
        }
        None => &[],
    }
}

/// The place of the key.
fn place(objects: &[(Vec<u8>, Vec<u8>)], key: &[u8]) -> Option<usize> {
    for (at, object) in objects.iter().enumerate() {
        if object.0.as_slice() == key {
            return Some(at);
        }
    }
    None
}

impl Store {
    /// A store of whose replies some have a fault.
    pub(crate) fn new(alloc: Global, step: usize, fault: PeerFault, every: u64) -> Self {
        Store {
            alloc,
            objects: Vec::new(alloc),
            asked: Vec::new(alloc),
            spans: Vec::new(alloc),
            coming: Vec::new(alloc),
            given: 0,
            step,
            every,
            fault,
            turns: 0,
        }
    }

    /// How many keys it has.
    pub(crate) fn count(&self) -> usize {
        self.objects.len()
    }

    /// Counts a reply that can have the fault, and answers whether it has it.
    fn has(&mut self, fault: PeerFault) -> bool {
        if self.fault != fault {
            return false;
        }
        self.turns = self.turns.wrapping_add(1);
        self.every != 0 && self.turns % self.every == 0
    }

    /// Takes the object out, and says whether there was one.
    fn take(&mut self, at: Option<usize>) -> bool {
        match at {
            Some(at) if at < self.objects.len() => {
                let _ = self.objects.swap_remove(at);
                true
            }
            _ => false,
        }
    }

    fn set(&mut self) -> std::result::Result<(), AllocError> {
        let key = Vec::from_slice(self.alloc, argument(&self.asked, &self.spans, 1))?;
        let value = Vec::from_slice(self.alloc, argument(&self.asked, &self.spans, 2))?;
        let at = place(&self.objects, &key);
        self.take(at);
        self.objects.push((key, value))?;
        push_simple(&mut self.coming, b"OK")
    }

    fn get(&mut self) -> std::result::Result<(), AllocError> {
        let at = place(&self.objects, argument(&self.asked, &self.spans, 1));
        if self.has(PeerFault::Forgets) {
            self.take(at);
            return push_nothing(&mut self.coming);
        }
        let flips = self.has(PeerFault::Flips);
        let Some((_, value)) = at.and_then(|at| self.objects.get(at)) else {
            return push_nothing(&mut self.coming);
        };
        push_string(&mut self.coming, value)?;
        if flips {
            // The last byte in front of CR LF, which where there is no value is the one of its length.
            let at = self.coming.len().saturating_sub(3);
            if let Some(byte) = self.coming.get_mut(at) {
                *byte ^= 4;
            }
        }
        Ok(())
    }

    fn delete(&mut self) -> std::result::Result<(), AllocError> {
        let at = place(&self.objects, argument(&self.asked, &self.spans, 1));
        let count = if self.take(at) { 1 } else { 0 };
        push_number(&mut self.coming, count)
    }

    /// Replies to the request.
    fn reply(&mut self) -> std::result::Result<(), AllocError> {
        let parsed = parse(&self.asked, LIMITS, &mut self.spans)?;
        let consumed = self.asked.len();
        if parsed != (Parsed::Request { consumed }) {
            return push_failure(&mut self.coming, b"ERR Protocol error");
        }
        if self.has(PeerFault::Refuses) {
            return push_failure(&mut self.coming, b"OOM command not allowed");
        }
        let name = argument(&self.asked, &self.spans, 0);
        if name == b"SET".as_slice() {
            return self.set();
        }
        if name == b"GET".as_slice() {
            return self.get();
        }
        if name == b"DEL".as_slice() {
            return self.delete();
        }
        push_failure(&mut self.coming, b"ERR unknown command")
    }
}

impl Read for Store {
    fn read(&mut self, buf: &mut [u8]) -> Result<usize> {
        let most = buf.len().min(self.step);
        let mut rest = self.coming.get(self.given..).unwrap_or(&[]);
        let count = rest.read(&mut buf[..most])?;
        self.given = self.given.wrapping_add(count);
        Ok(count)
    }
}

impl Write for Store {
    fn write(&mut self, buf: &[u8]) -> Result<usize> {
        self.asked.extend_from_slice(buf)?;
        Ok(buf.len())
    }

    fn flush(&mut self) -> Result<()> {
        self.coming.clear();
        self.given = 0;
        self.reply()?;
        self.asked.clear();
        Ok(())
    }
}
