//! A session's service: what the request loop (`request_loop`) calls for each request and wake.
ghost use Rattle.std.specs.Prelude.{◌≡◌, ◌≢◌};
ghost use Rattle.request_loop.specs.declared.service.Next.TheVariants as ends;

use crate::answer::answer;
use crate::context::SessionContext;
use crate::sums::Sums;
use commands::{Arguments, Span};
use far_blob::Blob;
use far_map::Calls;
use request_loop::{Next, Service, Woken};
use std::alloc::AllocError;
use std::sync::Wait;

/// What a session keeps from one request to the next, and from one map to the next.
#[derive(Drop)]
pub(crate) struct Kept {
    sums: Sums,
    /// How many more requests are answered before the session checks how many version numbers are left.
    until_look: u32,
}

impl Kept {
    /// What a session keeps that has answered nothing.
    pub(crate) fn new() -> Kept {
        Kept {
            sums: Sums::new(),
            until_look: 1,
        }
    }
}

/// A session's service. (`T` is `Kept`. It is a type parameter because a contract can state what the session is
/// left as only if all other fields that own memory are of such a type.)
#[derive(Drop)]
pub(crate) struct SessionService<'a, S: Calls<Blob>, R, T> {
    me: &'a mut S,
    context: &'a SessionContext<'a, R>,
    kept: T,
}

impl<'a, S: Calls<Blob>, R, T: Drop> SessionService<'a, S, R, T> {
    /// A service that goes on from what was kept.
    pub(crate) fn new(
        context: &'a SessionContext<'a, R>,
        me: &'a mut S,
        kept: T,
    ) -> SessionService<'a, S, R, T>
        ensures same_reference { result.me.ghost_name ≡ me.entry.ghost_name }
        ensures session { result.me.now ≡ me.old }
        ensures context { result.context.now ≡ context.now }
    {
        SessionService { me, context, kept }
    }

    /// Lets go of the session, and returns what it keeps.
    pub(crate) fn finish(self) -> T
        ensures session { self.exit.0.now ≡ self.entry.me.now }
        ensures kept { result ≡ self.entry.kept }
    {
        let SessionService {
            me: _,
            context: _,
            kept,
        } = self;
        kept
    }
}

impl<'a, S: Calls<Blob>, R: Wait> SessionService<'a, S, R, Kept> {
    /// What the loop does after a reply. It also checks now and then how many version numbers are left. When
    /// they are few, exactly one session has all sessions woken, and each leaves the map at its wake.
    fn behind(&mut self) -> Next
        ensures goes_on { result ≢ ends.End }
        ensures same_reference { self.new.me.ghost_name ≡ self.old.me.ghost_name }
        ensures session { self.new.me.now ≡ self.old.me.now }
        ensures context { self.new.context.now ≡ self.old.context.now }
    {
        let renewal = self.context.renewal;
        self.kept.until_look = self.kept.until_look.saturating_sub(1);
        if self.kept.until_look == 0 {
            self.kept.until_look = renewal.every();
            renewal.look(self.me.names_left());
        }
        if renewal.is_due() {
            Next::WakeAll
        } else {
            Next::GoOn
        }
    }
}

impl<'a, S: Calls<Blob>, R: Wait> Service for SessionService<'a, S, R, Kept> {
    ghost use Rattle.farcalls.specs.Services.{Acts};

    ghost does = { λ s call t. (t.me.ghost_name ≡ s.me.ghost_name) × (t.context.now ≡ s.context.now) × Acts S.limits s.context.now.settings.now.is_far (S.shown s.me.now) call (S.shown t.me.now) };

    // (there are no logins, and the other side need not be told of one)
    fn open(&mut self, _connection: u64, _address: &[u8]) -> Result<bool, AllocError> {
        Ok(false)
    }

    fn answer(
        &mut self,
        _connection: u64,
        bytes: &[u8],
        spans: &[Span],
        out: &mut Vec<u8>,
    ) -> Result<Next, AllocError> {
        let words = Arguments { bytes, spans };
        match answer(self.context, self.me, &self.kept.sums, words, out) {
            Ok(()) => Ok(self.behind()),
            Err(refused) => Err(refused),
        }
    }

    fn leave(&mut self, _connection: u64) -> Result<(), AllocError> {
        Ok(())
    }

    fn keeps(&self, _connection: u64) -> u64 {
        0
    }

    fn wake(&mut self) -> Result<Woken, AllocError> {
        self.me.settle(self.context.rt);
        if self.context.renewal.leaves() {
            self.kept.sums.leave(&self.me.stats(), &self.me.traffic());
            return Ok(Woken::Leave);
        }
        Ok(Woken::Stay)
    }

    fn note(&mut self, _text: &[u8], _reply: &mut Vec<u8>) -> Result<(), AllocError> {
        Ok(())
    }
}
