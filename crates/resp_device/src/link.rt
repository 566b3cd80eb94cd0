//! The pipes to the store, and what was read of its replies.
ghost use Rattle.std.specs.Prelude.{◌≡◌, ◌≤◌, ◌+◌, ℕ, true, false, pos, [], ◌∷◌, length, Err, IfOk, IfErr, OnOk};
ghost use Rattle.resp.specs.Parsing.{argument_in};
ghost use Rattle.resp.specs.Replies.{token, token_in, Simple, Number, String};
ghost use Rattle.resp_device.specs.Failures.{live_after, Breaks};
ghost use Rattle.resp_device.specs.Wire.{Exchanges, IsWhole, limits_of};

use crate::StoreFailure;
use crate::exchange::{receive, send};
use resp::{Limits, Span, Token};
use std::alloc::{AllocError, Global};
use std::io::{Read, Write};
use std::mem;

/// Bytes that are read at once: as many as a pipe holds.
const PIECE: usize = 1 << 16;

/// The most bytes of a line, as of an error's text.
const LINE: u32 = 1 << 12;

/// What a reply may have whose string has so many bytes at most.
fn limits_of(most: u32) -> Limits
    ensures { result ≡ limits_of most }
{
    Limits {
        arguments: 0,
        bytes: most,
        line: LINE,
    }
}

/// So many bytes from a place on.
pub(crate) fn part(bytes: &[u8], span: Span) -> &[u8]
    requires { span.from + span.len ≤ length bytes.now }
    ensures { result.now ≡ argument_in bytes.now span }
{
    let end = span.from + span.len;
    &bytes[span.from..end]
}

/// The pipes, and the reply that was read last.
#[derive(Drop)]
pub(crate) struct Link<P> {
    pub(crate) pipes: P,
    // Whether just whole replies to whole requests came so far.
    pub(crate) live: bool,
    piece: Vec<u8>,
    pub(crate) room: Vec<u8>,
}

impl<P: Read + Write + Drop> Link<P> {
    pub(crate) fn new(alloc: Global, pipes: P) -> Result<Self, AllocError>
        ensures { IfOk result (λ link. (link.pipes ≡ pipes) × (link.live ≡ true)) }
    {
        let mut piece = Vec::new(alloc);
        piece.resize(PIECE, 0)?;
        Ok(Link {
            pipes,
            live: true,
            piece,
            room: Vec::new(alloc),
        })
    }

    /// These pipes take the place of the others, which are given back.
    pub(crate) fn replace(&mut self, pipes: P) -> P
        ensures { (result ≡ self.old.pipes) × (self.new.pipes ≡ pipes) × (self.new.live ≡ true) }
    {
        self.live = true;
        mem::replace(&mut self.pipes, pipes)
    }

    /// Makes room for a reply whose string has so many bytes at most.
    pub(crate) fn make_ready(&mut self, most: u32) -> Result<(), AllocError>
        ensures { (self.new.pipes ≡ self.old.pipes) × (self.new.live ≡ self.old.live) }
    {
        self.room.clear();
        self.room.reserve(most as usize + PIECE)
    }

    /// Sends the request and takes the reply to it, which lies in `room`. Broken pipes are not used.
    fn exchange(&mut self, request: &[u8], most: u32) -> Result<Token, StoreFailure>
        ensures exchanged { IfOk result (λ read. Exchanges P.contents P.remaining
            self.old.pipes self.new.pipes request.now (token (token_in self.new.room.items read))) }
        ensures whole { IfOk result (λ read. IsWhole (limits_of most) self.new.room.items read) }
        ensures live { OnOk result ((self.old.live ≡ true) × (self.new.live ≡ true)) }
        ensures failed { IfErr result (λ why. Breaks why × (self.new.live ≡ false)) }
        ensures broken { self.old.live ≡ false
            → (result ≡ Err StoreFailure.Broken) × (self.new ≡ self.old) }
    {
        if !self.live {
            return Err(StoreFailure::Broken);
        }
        // A call that ends early leaves them so.
        self.live = false;
        send(&mut self.pipes, request)?;
        let limits = limits_of(most);
        let token = receive(&mut self.pipes, &mut self.piece, &mut self.room, limits)?;
        self.live = true;
        Ok(token)
    }

    /// Why the reply is not the wanted one. Behind an error the pipes can be used, else no more.
    fn refuse(&mut self, token: Token) -> StoreFailure
        requires { self.old.live ≡ true }
        ensures pipes { self.new.pipes ≡ self.old.pipes }
        ensures live { self.new.live ≡ live_after result self.old.live }
    {
        match token {
            Token::Failure(_) => StoreFailure::Refused,
            _ => {
                self.live = false;
                StoreFailure::Wrong
            }
        }
    }

    /// Sends a request that is replied `+OK`.
    pub(crate) fn store(&mut self, request: &[u8]) -> Result<(), StoreFailure>
        ensures stored { OnOk result (Exchanges P.contents P.remaining
            self.old.pipes self.new.pipes request.now (token (Simple (79 ∷ 75 ∷ [])))) }
        ensures live { OnOk result ((self.old.live ≡ true) × (self.new.live ≡ true)) }
        ensures failed { IfErr result (λ why. self.new.live ≡ live_after why self.old.live) }
        ensures broken { self.old.live ≡ false
            → (result ≡ Err StoreFailure.Broken) × (self.new ≡ self.old) }
    {
        let token = self.exchange(request, 0)?;
        if let Token::Simple(span) = token
            && part(&self.room, span) == b"OK".as_slice()
        {
            return Ok(());
        }
        Err(self.refuse(token))
    }

    /// Sends a request that is replied a string, of so many bytes at most, and says where in `room` it
    /// lies.
    pub(crate) fn fetch(&mut self, request: &[u8], most: u32) -> Result<Span, StoreFailure>
        ensures fetched { IfOk result (λ span. Exchanges P.contents P.remaining
            self.old.pipes self.new.pipes request.now
            (token (String (argument_in self.new.room.items span)))) }
        ensures within { IfOk result (λ span.
            span.from + span.len ≤ length self.new.room.items) }
        ensures short { IfOk result (λ span.
            length (argument_in self.new.room.items span) ≤ most) }
        ensures live { OnOk result ((self.old.live ≡ true) × (self.new.live ≡ true)) }
        ensures failed { IfErr result (λ why. self.new.live ≡ live_after why self.old.live) }
        ensures broken { self.old.live ≡ false
            → (result ≡ Err StoreFailure.Broken) × (self.new ≡ self.old) }
    {
        match self.exchange(request, most)? {
            Token::String(span) => Ok(span),
            Token::Nothing => Err(StoreFailure::Lost),
            token => Err(self.refuse(token)),
        }
    }

    /// Sends a request that is replied how many keys it was about, 0 or 1.
    pub(crate) fn count(&mut self, request: &[u8]) -> Result<(), StoreFailure>
        ensures counted { OnOk result ((n : ℕ) × (n ≤ 1) × Exchanges P.contents P.remaining
            self.old.pipes self.new.pipes request.now (token (Number (pos n)))) }
        ensures live { OnOk result ((self.old.live ≡ true) × (self.new.live ≡ true)) }
        ensures failed { IfErr result (λ why. self.new.live ≡ live_after why self.old.live) }
        ensures broken { self.old.live ≡ false
            → (result ≡ Err StoreFailure.Broken) × (self.new ≡ self.old) }
    {
        match self.exchange(request, 0)? {
            Token::Number(0) => Ok(()),
            Token::Number(1) => Ok(()),
            token => Err(self.refuse(token)),
        }
    }
}
