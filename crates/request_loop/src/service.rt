//! The trait of what answers requests.
ghost use Rattle.std.specs.Prelude.{◌≡◌, ◌<◌, ◌++◌, ℕ, List, [], length, IfOk, OnOk};
ghost use Rattle.resp.specs.Parsing.{arguments_in, AreWithin};
ghost use Rattle.resp.specs.Replies.{Token, token};
ghost use Rattle.std.specs.List.{flat_map};
ghost use Rattle.request_loop.specs.Calls.{Call, Asked, Left, Awake, Opened, Noted};

use resp::Span;
use std::alloc::AllocError;

/// What the loop does after a reply.
#[derive(Clone, Copy, Debug, PartialEq, Eq)]
pub enum Next {
    GoOn,
    /// Wakes all workers, this one too.
    WakeAll,
    /// Closes the connection once the reply is sent.
    End,
    /// Informs the gateway that the connection is authenticated from now on.
    LetIn,
    /// Informs the gateway that the connection is unauthenticated from now on.
    LetOut,
}

/// What the loop does after a wake.
#[derive(Clone, Copy, Debug, PartialEq, Eq)]
pub enum Woken {
    Stay,
    /// Serves no more, though there may be more packets.
    Leave,
}

/// Answers requests of many connections. Each connection has a number, and no number is used twice.
///
/// One loop makes all calls, one after another. For a connection it calls `open`, then `answer` for
/// each request, and `leave` when the connection is over. If a call returns `AllocError`, the loop ends
/// with `LoopFault::Memory`, and no connection is served any more.
pub trait Service {
    /// What a call may do: from the first state this call may be made and answered so, and the second
    /// is the state afterwards.
    ghost does: { Self → Call → Self → Type 0 };

    /// A client has connected from this address, which is text. Returns whether it is authenticated at
    /// once.
    fn open(&mut self, connection: u64, address: &[u8]) -> Result<bool, AllocError>
        ensures { IfOk result (λ let_in. does self.old (Opened connection address.now let_in) self.new) };

    /// Pushes the reply to a request to the end of `out`, and returns what the loop does next.
    ///
    /// `spans` are the places of the request's arguments in `bytes`. There is at least one. `out` has
    /// room for 1 KiB more.
    fn answer(
        &mut self,
        connection: u64,
        bytes: &[u8],
        spans: &[Span],
        out: &mut Vec<u8>,
    ) -> Result<Next, AllocError>
        requires within { AreWithin (length bytes.now) spans.now }
        requires some { 0 < length spans.now }
        ensures { IfOk result (λ next. (r : List Token) × does self.old (Asked connection (arguments_in bytes.now spans.now) r next) self.new × (out.new.items ≡ out.old.items ++ flat_map token r)) };

    /// The connection is over. This is called once for each connection, and nothing is asked of it
    /// afterwards.
    ///
    /// It may be called for a connection without `open`, if the loop had no memory for the connection.
    fn leave(&mut self, connection: u64) -> Result<(), AllocError>
        ensures { OnOk result (does self.old (Left connection) self.new) };

    /// How many bytes of memory the service keeps for the connection, in addition to what it keeps for
    /// each one. 0 if none. The gateway uses the number. Nothing is promised of it.
    fn keeps(&self, connection: u64) -> u64;

    /// A wake was read. Returns whether the service leaves.
    fn wake(&mut self) -> Result<Woken, AllocError>
        ensures { IfOk result (λ woken. does self.old (Awake woken) self.new) };

    /// A note was read. What is pushed to `reply` is sent back as one note, cut at 4,096 bytes. If
    /// nothing is pushed, no note is sent.
    fn note(&mut self, text: &[u8], reply: &mut Vec<u8>) -> Result<(), AllocError>
        requires nothing { reply.old.items ≡ [] }
        ensures { OnOk result (does self.old (Noted text.now reply.new.items) self.new) };
}
