//! A worker's service: what the request loop (`request_loop`) calls for each open, request, close, note and wake.
ghost use Rattle.std.specs.Prelude.{◌≡◌, ℕ, Bool, []};
ghost use Rattle.request_loop.specs.declared.service.Next.TheVariants as ends;
ghost use Rattle.far_server.specs.Answers.{known_at, unknown, IsAdmission};

use crate::connection::Connection;
use crate::connections::{answer_at, forget, kept_for, make_place};
use crate::context::{ServerContext, Workspace};
use crate::notes::take_note;
use crate::settings::ServerSettings;
use commands::{Arguments, Span};
use far_blob::Blob;
use far_map::Calls;
use request_loop::{Next, Service, Woken};
use server_commands::Statistic;
use std::alloc::{AllocError, Global};
use std::collections::BTreeMap;
use std::rt::Clock;
use std::sync::Wait;

/// What a worker keeps from one request to the next, and from one map to the next.
#[derive(Drop)]
pub(crate) struct Kept {
    /// The connections that have a place, each by the number that the gateway drew for it.
    connections: BTreeMap<u64, Connection>,
    workspace: Workspace,
    /// How many more requests are answered before the worker checks how many version numbers are left.
    until_look: u32,
}

impl Kept {
    /// What a worker keeps that knows no connection.
    pub(crate) fn new(alloc: Global, settings: &ServerSettings) -> Kept
        ensures { result.connections.entries ≡ [] }
    {
        Kept {
            connections: BTreeMap::new(alloc),
            workspace: Workspace::new(alloc, settings),
            until_look: 1,
        }
    }
}

/// A worker's service: its session, what all workers share, and what the worker keeps. (`T` is `Kept`. It is
/// a type parameter because a contract can state what the session is left as only if all other fields that
/// own memory are of such a type.)
#[derive(Drop)]
pub(crate) struct Server<'a, S: Calls<Blob>, C, R, T> {
    me: &'a mut S,
    context: &'a ServerContext<'a, C, R>,
    kept: T,
}

impl<'a, S: Calls<Blob>, C, R, T: Drop> Server<'a, S, C, R, T> {
    /// Lets go of the session, and returns what the worker keeps.
    pub(crate) fn finish(self) -> T
        ensures session { self.exit.0.now ≡ self.entry.me.now }
        ensures kept { result ≡ self.entry.kept }
    {
        let Server {
            me: _,
            context: _,
            kept,
        } = self;
        kept
    }
}

impl<'a, S: Calls<Blob>, C: Clock, R: Wait> Server<'a, S, C, R, Kept> {
    /// A service that goes on from what was kept.
    pub(crate) fn new(
        context: &'a ServerContext<'a, C, R>,
        me: &'a mut S,
        kept: Kept,
    ) -> Server<'a, S, C, R, Kept>
        ensures same_reference { result.me.ghost_name ≡ me.entry.ghost_name }
        ensures session { result.me.now ≡ me.old }
        ensures context { result.context.now ≡ context.now }
        ensures connections { result.kept.connections.entries ≡ kept.connections.entries }
    {
        let mut kept = kept;
        let counted = kept.workspace.statistics;
        kept.workspace.begin(counted);
        Server { me, context, kept }
    }

    /// What the request loop does after a reply. It also checks now and then how many version numbers are
    /// left. When they are few, exactly one worker has all workers woken, and each leaves the map at its
    /// wake.
    fn behind(&mut self, next: Next) -> Next
        ensures told { (might may : Bool) → IsAdmission might may next → IsAdmission might may result }
        ensures end { (result ≡ ends.End → next ≡ ends.End) × (next ≡ ends.End → result ≡ ends.End) }
        ensures same_reference { self.new.me.ghost_name ≡ self.old.me.ghost_name }
        ensures session { self.new.me.now ≡ self.old.me.now }
        ensures context { self.new.context.now ≡ self.old.context.now }
        ensures connections { self.new.kept.connections.entries ≡ self.old.kept.connections.entries }
    {
        let renewal = self.context.renewal;
        self.kept.until_look = self.kept.until_look.saturating_sub(1);
        if self.kept.until_look == 0 {
            self.kept.until_look = renewal.every();
            renewal.look(self.me.names_left());
        }
        if self.kept.workspace.wants_renewal {
            self.kept.workspace.wants_renewal = false;
            renewal.ask();
        }
        // A reply that closes the connection, or lets it in or out, leaves the wake to a later reply.
        if next == Next::GoOn && renewal.is_due(self.context.clock) {
            return Next::WakeAll;
        }
        next
    }

    /// Makes a place for the connection of this number, if it has none, and keeps the client's address.
    fn make_place(&mut self, connection: u64, address: &[u8]) -> Result<(), AllocError>
        ensures same_reference { self.new.me.ghost_name ≡ self.old.me.ghost_name }
        ensures session { self.new.me.now ≡ self.old.me.now }
        ensures context { self.new.context.now ≡ self.old.context.now }
        ensures known { (c : ℕ) → known_at self.new.kept.connections.entries c (unknown self.old.context.now.settings.now.password) ≡ known_at self.old.kept.connections.entries c (unknown self.old.context.now.settings.now.password) }
    {
        let is_authenticated = self.context.settings.password.is_none();
        let Kept {
            connections,
            workspace,
            ..
        } = &mut self.kept;
        make_place(
            self.context,
            connections,
            connection,
            workspace,
            is_authenticated,
            address,
        )
    }

    /// Publishes the statistics, and gives back the memory of a large value.
    fn tell(&mut self)
        ensures same_reference { self.new.me.ghost_name ≡ self.old.me.ghost_name }
        ensures session { self.new.me.now ≡ self.old.me.now }
        ensures context { self.new.context.now ≡ self.old.context.now }
        ensures connections { self.new.kept.connections.entries ≡ self.old.kept.connections.entries }
    {
        self.kept.workspace.tell(self.context, &self.me.traffic());
        self.kept.workspace.give_back(self.context.alloc);
    }
}

impl<'a, S: Calls<Blob>, C: Clock, R: Wait> Service for Server<'a, S, C, R, Kept> {
    ghost use Rattle.far_server.specs.Services.{worker_view, Acts};

    ghost does = { λ s call t. (t.me.ghost_name ≡ s.me.ghost_name) × (t.context.now ≡ s.context.now) × Acts S.limits s.context.now.settings.now.digest_keys s.context.now.settings.now.password s.context.now.settings.now.bounds (worker_view s.context.now.settings.now.password (S.shown s.me.now) s.kept.connections.entries) call (worker_view s.context.now.settings.now.password (S.shown t.me.now) t.kept.connections.entries) };

    fn open(&mut self, connection: u64, address: &[u8]) -> Result<bool, AllocError> {
        // If there is no memory for its place, its first request is refused, and the connection is closed
        // then.
        let _ = self.make_place(connection, address);
        self.tell();
        Ok(self.context.settings.password.is_none())
    }

    fn answer(
        &mut self,
        connection: u64,
        bytes: &[u8],
        spans: &[Span],
        out: &mut Vec<u8>,
    ) -> Result<Next, AllocError> {
        let request = Arguments { bytes, spans };
        let context = self.context;
        let _turn = context
            .turns
            .take(context.rt, bytes.len(), context.settings.large);
        match answer_at(
            self.context,
            self.me,
            &mut self.kept.connections,
            connection,
            &mut self.kept.workspace,
            request,
            out,
        ) {
            Ok(next) => {
                self.tell();
                Ok(self.behind(next))
            }
            Err(refused) => Err(refused),
        }
    }

    fn leave(&mut self, connection: u64) -> Result<(), AllocError> {
        if forget(&mut self.kept.connections, connection) {
            self.kept
                .workspace
                .statistics
                .count(Statistic::ConnectionsClosed);
        }
        self.tell();
        Ok(())
    }

    fn keeps(&self, connection: u64) -> u64 {
        kept_for(&self.kept.connections, connection)
    }

    fn note(&mut self, text: &[u8], reply: &mut Vec<u8>) -> Result<(), AllocError> {
        // If there is no memory for the answer, none is sent.
        if take_note(self.context, text, reply).is_err() {
            reply.clear();
        }
        Ok(())
    }

    fn wake(&mut self) -> Result<Woken, AllocError> {
        self.me.settle(self.context.rt);
        if self.context.renewal.leaves() {
            return Ok(Woken::Leave);
        }
        Ok(Woken::Stay)
    }
}
