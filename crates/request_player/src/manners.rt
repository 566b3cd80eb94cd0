//! What answers requests in the cases of workers: a small service, whose behaviour the opening chooses.
ghost use Rattle.std.specs.Prelude.{◌≡◌, ◌<◌, ◌++◌, List, length, OnOk};
ghost use Rattle.std.specs.List.{flat_map};
ghost use Rattle.resp.specs.Parsing.{AreWithin};
ghost use Rattle.resp.specs.Replies.{Token, token};

use request_loop::{Next, Service, Woken};
use resp::{Span, push_simple, push_string};
use std::alloc::{AllocError, Global};

/// What it replies to a request.
#[derive(Clone, Copy)]
pub(crate) enum Says {
    /// The first word, as a string.
    Word,
    /// The first word, as a line.
    Line,
    /// `+OK`.
    Done,
}

/// How it behaves.
#[derive(Clone, Copy)]
pub(crate) struct Manner {
    pub(crate) says: Says,
    /// Whether everybody may ask at once, and not only who comes from `friend`.
    pub(crate) lets_all_in: bool,
    /// Whether it leaves at a wake.
    pub(crate) leaves: bool,
}

/// The service.
#[derive(Drop)]
pub(crate) struct Manners {
    manner: Manner,
    /// What it says to LONG.
    long: Vec<u8>,
    /// How many bytes it says that it keeps for each connection.
    kept: u64,
    has_left: bool,
}

/// The manner of this name.
pub(crate) fn manner_of(name: &[u8]) -> Option<Manner> {
    let (says, lets_all_in, leaves) = match name {
        b"echo" => (Says::Word, false, false),
        b"leaver" => (Says::Word, false, true),
        b"plain" => (Says::Line, true, false),
        b"keeper" => (Says::Done, false, false),
        _ => return None,
    };
    Some(Manner {
        says,
        lets_all_in,
        leaves,
    })
}

/// The first argument.
fn first<'a>(bytes: &'a [u8], spans: &[Span]) -> &'a [u8]
    requires within { AreWithin (length bytes.now) spans.now }
    requires some { 0 < length spans.now }
{
    let from = spans[0].from;
    let len = spans[0].len;
    &bytes[from..from + len]
}

/// The second argument, where it is a number.
fn number_behind(bytes: &[u8], spans: &[Span]) -> Option<u64> {
    let span = *spans.get(1)?;
    let word = bytes.get(span.from..)?.get(..span.len)?;
    str::from_utf8(word).ok()?.parse::<u64>().ok()
}

fn next_behind(said: &[u8]) -> Next {
    if said == b"QUIT".as_slice() {
        return Next::End;
    }
    if said == b"WAKE".as_slice() {
        return Next::WakeAll;
    }
    if said == b"AUTH".as_slice() {
        return Next::LetIn;
    }
    if said == b"RESET".as_slice() {
        return Next::LetOut;
    }
    Next::GoOn
}

/// Pushes a string.
fn say_string(said: &[u8], out: &mut Vec<u8>) -> Result<(), AllocError>
    ensures { OnOk result ((r : List Token) × (out.new.items ≡ out.old.items ++ flat_map token r)) }
{
    match push_string(out, said) {
        Ok(()) => Ok(()),
        Err(refused) => Err(refused),
    }
}

/// Pushes a line.
fn say_line(said: &[u8], out: &mut Vec<u8>) -> Result<(), AllocError>
    ensures { OnOk result ((r : List Token) × (out.new.items ≡ out.old.items ++ flat_map token r)) }
{
    match push_simple(out, said) {
        Ok(()) => Ok(()),
        Err(refused) => Err(refused),
    }
}

impl Manners {
    /// One that says so many bytes to LONG.
    pub(crate) fn new(alloc: Global, manner: Manner, long: usize) -> Result<Manners, AllocError> {
        Ok(Manners {
            manner,
            long: vec![in alloc; b'x'; long]?,
            kept: 0,
            has_left: false,
        })
    }

    pub(crate) fn has_left(&self) -> bool {
        self.has_left
    }

    /// Pushes the reply to a request of this first word.
    fn say(&self, said: &[u8], out: &mut Vec<u8>) -> Result<(), AllocError>
        ensures { OnOk result ((r : List Token) × (out.new.items ≡ out.old.items ++ flat_map token r)) }
    {
        if said == b"LONG".as_slice() {
            return say_string(self.long.as_slice(), out);
        }
        match self.manner.says {
            Says::Word => say_string(said, out),
            Says::Line => say_line(said, out),
            Says::Done => say_line(b"OK", out),
        }
    }
}

impl Service for Manners {
    ghost does = { λ s call t. Unit {0} };

    fn open(&mut self, connection: u64, address: &[u8]) -> Result<bool, AllocError> {
        let _ = connection;
        Ok(self.manner.lets_all_in || address == b"friend".as_slice())
    }

    fn answer(
        &mut self,
        connection: u64,
        bytes: &[u8],
        spans: &[Span],
        out: &mut Vec<u8>,
    ) -> Result<Next, AllocError> {
        let _ = connection;
        let said = first(bytes, spans);
        if said == b"KEEP".as_slice() {
            self.kept = number_behind(bytes, spans).unwrap_or(0);
        }
        match self.say(said, out) {
            Ok(()) => Ok(next_behind(said)),
            Err(refused) => Err(refused),
        }
    }

    fn leave(&mut self, connection: u64) -> Result<(), AllocError> {
        let _ = connection;
        Ok(())
    }

    fn keeps(&self, connection: u64) -> u64 {
        let _ = connection;
        self.kept
    }

    fn wake(&mut self) -> Result<Woken, AllocError> {
        self.has_left = self.manner.leaves;
        if self.has_left {
            Ok(Woken::Leave)
        } else {
            Ok(Woken::Stay)
        }
    }

    fn note(&mut self, text: &[u8], reply: &mut Vec<u8>) -> Result<(), AllocError> {
        if text == b"long".as_slice() {
            return reply.extend_from_slice(self.long.as_slice());
        }
        if text == b"none".as_slice() {
            return Ok(());
        }
        reply.extend_from_slice(text)
    }
}
