//! What each thread of a server does in its terms, one on each map: a worker answers requests, and the last
//! thread sweeps.
ghost use Rattle.std.specs.Prelude.{◌≡◌, false, IfOk, OnOk};
ghost use Rattle.request_loop.specs.Packets.{WireTells};
ghost use Rattle.request_loop.specs.Standing.{GoesOnBy};
ghost use Rattle.far_server.specs.Services.{Acts, worker_view};
ghost use Rattle.request_loop.specs.declared.pause.Pause.TheVariants as pause;
ghost use Rattle.far_server.specs.Left.{HasStood, HasEnded};
ghost use Rattle.far_server.specs.Serving.{GoesOn, ServesOn};
ghost use Rattle.far_server.specs.declared.states.WorkerState.TheVariants as state;

use crate::context::ServerContext;
use crate::pipes::Pipes;
use crate::renewal::Renewal;
use crate::server::{Kept, Server};
use crate::settings::ServerSettings;
use crate::slow_log::SlowLog;
use crate::states::{PausedWorker, WorkerState};
use crate::statistics::SharedStatistics;
use crate::sweep::sweep;
use crate::turns::Turns;
use crate::usage::FarUsage;
use crate::worker_end::{ServeFault, WorkerEnd};
use far_blob::Blob;
use far_map::{After, Calls, LoadReport, RenewableWork};
use request_loop::{Holds, LoopFault, PacketInput, PacketOutput, Pause, Wire, serve_on};
use std::alloc::Global;
use std::rt::Clock;
use std::sync::Wait;

/// The workers of a server, and what they share. `far_map::run_renewed` runs their terms.
#[derive(Drop)]
pub(crate) struct Workers<'a, P, C> {
    pub(crate) settings: &'a ServerSettings,
    pub(crate) shared_statistics: &'a SharedStatistics,
    pub(crate) usage: &'a FarUsage,
    pub(crate) renewal: &'a Renewal,
    pub(crate) turns: &'a Turns,
    pub(crate) slow_log: &'a SlowLog,
    pub(crate) pipes: &'a P,
    pub(crate) clock: &'a C,
    pub(crate) started: u64,
}

/// Serves the packets of a worker by `server`, from where its last term ended. Returns why it paused, and
/// what the request loop holds of the connections then.
fn serve_packets<S: Calls<Blob>, C: Clock, R: Wait, I: PacketInput + Drop, O: PacketOutput + Drop>(
    alloc: Global,
    wire: &mut Wire<I, O>,
    server: &mut Server<'_, S, C, R, Kept>,
    holds: Holds,
) -> Result<(Pause, Holds), LoopFault>
    requires { HasStood I.remaining O.contents wire.old holds }
    ensures same_reference { OnOk result (server.new.me.ghost_name ≡ server.old.me.ghost_name) }
    ensures went_on { IfOk result (λ left. GoesOnBy (WireTells I.remaining O.contents) (Acts S.limits server.old.context.now.settings.now.digest_keys server.old.context.now.settings.now.password server.old.context.now.settings.now.bounds) wire.old.limits wire.old wire.new
        (worker_view server.old.context.now.settings.now.password (S.shown server.old.me.now) server.old.kept.connections.entries) (worker_view server.old.context.now.settings.now.password (S.shown server.new.me.now) server.new.kept.connections.entries) holds left.1) }
    ensures sent { OnOk result (O.handed_on wire.new.output) }
    ensures whole { OnOk result (wire.new.broken ≡ false) }
    ensures ended { IfOk result (λ left. left.0 ≡ pause.End → HasEnded I.remaining O.contents wire.old wire.new holds) }
    ensures limits { OnOk result (wire.new.limits ≡ wire.old.limits) }
{
    serve_on(alloc, wire, server, holds)
}

/// Serves a worker's requests from where its last term ended: until no more packets come, or until the wake
/// at which all workers leave.
fn serve<S: Calls<Blob>, C: Clock, R: Wait, I: PacketInput + Drop, O: PacketOutput + Drop>(
    context: &ServerContext<'_, C, R>,
    me: &mut S,
    left: PausedWorker<I, O>,
) -> WorkerState<I, O>
    ensures { GoesOn I.remaining O.contents S.limits context.now.settings.now.digest_keys context.now.settings.now.password context.now.settings.now.bounds (S.shown me.old) (S.shown me.new) left result }
{
    let PausedWorker {
        mut wire,
        holds,
        kept,
    } = left;
    context.renewal.serve(context.clock);
    let mut server = Server::new(context, me, kept);
    match serve_packets(context.alloc, &mut wire, &mut server, holds) {
        Ok((pause, holds)) => {
            let kept = server.finish();
            match pause {
                Pause::Wake => WorkerState::Left(PausedWorker { wire, holds, kept }),
                Pause::End => WorkerState::Ended(WorkerEnd::Served(Ok(wire.into_parts()))),
            }
        }
        Err(fault) => WorkerState::Ended(WorkerEnd::Served(Err(ServeFault::Loop(fault)))),
    }
}

/// The same for a worker that has not begun: it opens its pipes first.
fn begin<S: Calls<Blob>, P: Pipes, C: Clock, R: Wait>(
    context: &ServerContext<'_, C, R>,
    me: &mut S,
    pipes: &P,
) -> WorkerState<P::Input, P::Output>
    ensures { ServesOn P.Input.remaining P.Output.contents (P.opens pipes.now context.now.worker) S.limits context.now.settings.now (S.shown me.old) (S.shown me.new) state.Fresh result }
{
    let alloc = context.alloc;
    let (input, output) = match pipes.open(alloc, context.worker) {
        Ok(both) => both,
        Err(fault) => return WorkerState::Ended(WorkerEnd::Served(Err(ServeFault::Pipes(fault)))),
    };
    let wire = Wire::new(alloc, input, output, context.settings.requests);
    let holds = Holds::none(alloc);
    let kept = Kept::new(alloc, context.settings);
    serve(context, me, PausedWorker { wire, holds, kept })
}

/// A worker's term, from what the worker kept. A worker that has ended does nothing. The sweep learns by
/// `SharedStatistics::leave` that a worker has left the map.
fn serve_term<S: Calls<Blob>, P: Pipes, C: Clock, R: Wait>(
    context: &ServerContext<'_, C, R>,
    me: &mut S,
    pipes: &P,
    state: WorkerState<P::Input, P::Output>,
) -> WorkerState<P::Input, P::Output>
    ensures { ServesOn P.Input.remaining P.Output.contents (P.opens pipes.now context.now.worker) S.limits context.now.settings.now (S.shown me.old) (S.shown me.new) state result }
{
    match state {
        WorkerState::Fresh => {
            let after = begin(context, me, pipes);
            context.shared_statistics.leave();
            after
        }
        WorkerState::Left(left) => {
            let after = serve(context, me, left);
            context.shared_statistics.leave();
            after
        }
        WorkerState::Ended(end) => WorkerState::Ended(end),
    }
}

/// How many workers have not ended.
fn count_unended<I: PacketInput + Drop, O: PacketOutput + Drop>(
    states: &[WorkerState<I, O>],
) -> u32 {
    let mut count = 0u32;
    for state in states {
        if !matches!(state, WorkerState::Ended(_)) {
            count = count.saturating_add(1);
        }
    }
    count
}

impl<'a, P: Pipes + Sync, C: Clock + Sync> RenewableWork<Blob> for Workers<'a, P, C>
where
    P::Input: Send,
    P::Output: Send,
{
    ghost use Rattle.far_server.specs.Serving.{IsTerm};

    type State = WorkerState<P::Input, P::Output>;

    // On each connection the replies are those to its requests, by the calls of this worker's sessions and no
    // others. The sweep does only what `Sweeps` allows.
    ghost done = { λ workers worker l begun ended before after. IsTerm P.Input.remaining P.Output.contents (P.opens workers.pipes.now worker) l workers.settings.now worker begun ended before after };

    fn term<S: Calls<Blob>, R: Wait>(
        &self,
        rt: &R,
        alloc: Global,
        worker: u32,
        me: &mut S,
        state: WorkerState<P::Input, P::Output>,
    ) -> WorkerState<P::Input, P::Output> {
        let context = ServerContext {
            rt,
            clock: self.clock,
            alloc,
            settings: self.settings,
            shared_statistics: self.shared_statistics,
            usage: self.usage,
            renewal: self.renewal,
            turns: self.turns,
            slow_log: self.slow_log,
            worker: worker,
            started: self.started,
        };
        if worker >= self.settings.workers {
            sweep(&context, me);
            return WorkerState::Ended(WorkerEnd::Sweep);
        }
        serve_term(&context, me, self.pipes, state)
    }

    fn begins(&self, load_report: LoadReport) {
        self.shared_statistics.carry(load_report.pairs);
        self.renewal.begin(load_report);
    }

    fn after(&self, states: &[WorkerState<P::Input, P::Output>]) -> After {
        let workers = count_unended(states);
        self.shared_statistics.begin(workers);
        if workers > 0 {
            After::Renewed
        } else {
            After::End
        }
    }
}
