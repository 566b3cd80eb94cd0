//! What each session does in its terms, one on each map: it answers requests.
ghost use Rattle.std.specs.Prelude.{◌≡◌, false, IfOk, OnOk};
ghost use Rattle.request_loop.specs.Packets.{WireTells};
ghost use Rattle.request_loop.specs.Standing.{GoesOnBy};
ghost use Rattle.request_loop.specs.declared.pause.Pause.TheVariants as pause;
ghost use Rattle.farcalls.specs.Services.{Acts};
ghost use Rattle.farcalls.specs.Left.{HasStood, HasEnded};
ghost use Rattle.farcalls.specs.Serving.{request_limits, GoesOn, ServesOn};
ghost use Rattle.farcalls.specs.declared.states.SessionState.TheVariants as state;

use crate::context::SessionContext;
use crate::pair_count::PairCount;
use crate::pipes::Pipes;
use crate::reason::LastReason;
use crate::renewal::Renewal;
use crate::service::{Kept, SessionService};
use crate::session_end::{SessionEnd, SessionFault};
use crate::session_run::SessionSettings;
use crate::states::{PausedSession, SessionState};
use far_blob::Blob;
use far_map::{After, Calls, LoadReport, RenewableWork};
use request_loop::{Holds, LoopFault, PacketInput, PacketOutput, Pause, Wire, serve_on};
use resp::Limits;
use std::alloc::Global;
use std::sync::Wait;

/// The sessions of a run, and what they share. `far_map::run_renewed` runs their terms.
#[derive(Drop)]
pub(crate) struct Sessions<'a, P> {
    pub(crate) settings: &'a SessionSettings,
    pub(crate) pairs: &'a PairCount,
    pub(crate) renewal: &'a Renewal,
    pub(crate) reason: &'a LastReason,
    pub(crate) pipes: &'a P,
}

/// The limits of a request. Its strings have a key and two values at most, or the keys of MGET.
fn request_limits() -> Limits
    ensures { result ≡ request_limits }
{
    Limits {
        arguments: 65_536,
        bytes: 48 << 20,
        line: 1 << 16,
    }
}

/// Serves the packets of a session by `service`, from where its last term ended. Returns why it paused, and
/// what the request loop holds of the connections then.
fn serve_packets<S: Calls<Blob>, R: Wait, I: PacketInput + Drop, O: PacketOutput + Drop>(
    alloc: Global,
    wire: &mut Wire<I, O>,
    service: &mut SessionService<'_, S, R, Kept>,
    holds: Holds,
) -> Result<(Pause, Holds), LoopFault>
    requires { HasStood I.remaining O.contents wire.old holds }
    ensures same_reference { OnOk result (service.new.me.ghost_name ≡ service.old.me.ghost_name) }
    ensures went_on { IfOk result (λ left. GoesOnBy (WireTells I.remaining O.contents) (Acts S.limits service.old.context.now.settings.now.is_far) wire.old.limits wire.old wire.new
        (S.shown service.old.me.now) (S.shown service.new.me.now) holds left.1) }
    ensures whole { OnOk result (wire.new.broken ≡ false) }
    ensures ended { IfOk result (λ left. left.0 ≡ pause.End → HasEnded I.remaining O.contents wire.old wire.new holds) }
    ensures limits { OnOk result (wire.new.limits ≡ wire.old.limits) }
{
    serve_on(alloc, wire, service, holds)
}

/// Serves a session's requests from where its last term ended: until no more packets come, or until the wake
/// at which all sessions leave.
fn serve<S: Calls<Blob>, R: Wait, I: PacketInput + Drop, O: PacketOutput + Drop>(
    context: &SessionContext<'_, R>,
    me: &mut S,
    left: PausedSession<I, O>,
) -> SessionState<I, O>
    ensures { GoesOn I.remaining O.contents S.limits context.now.settings.now.is_far (S.shown me.old) (S.shown me.new) left result }
{
    let PausedSession {
        mut wire,
        holds,
        kept,
    } = left;
    let mut service = SessionService::new(context, me, kept);
    match serve_packets(context.alloc, &mut wire, &mut service, holds) {
        Ok((pause, holds)) => {
            let kept = service.finish();
            match pause {
                Pause::Wake => SessionState::Left(PausedSession { wire, holds, kept }),
                Pause::End => {
                    let (input, output) = wire.into_parts();
                    SessionState::Ended(SessionEnd::Served(input, output))
                }
            }
        }
        Err(fault) => SessionState::Ended(SessionEnd::Failed(SessionFault::Loop(fault))),
    }
}

/// The same for a session that has not begun: it opens its pipes first.
fn begin<S: Calls<Blob>, P: Pipes, R: Wait>(
    context: &SessionContext<'_, R>,
    me: &mut S,
    pipes: &P,
) -> SessionState<P::Input, P::Output>
    ensures { ServesOn P.Input.remaining P.Output.contents (P.opens pipes.now context.now.session) S.limits context.now.settings.now.is_far (S.shown me.old) (S.shown me.new) state.Fresh result }
{
    let alloc = context.alloc;
    let (input, output) = match pipes.open(alloc, context.session) {
        Ok(both) => both,
        Err(fault) => return SessionState::Ended(SessionEnd::Failed(fault)),
    };
    let wire = Wire::new(alloc, input, output, request_limits());
    let holds = Holds::none(alloc);
    let kept = Kept::new();
    serve(context, me, PausedSession { wire, holds, kept })
}

/// A session's term, from what the session kept. A session that has ended does nothing.
fn serve_term<S: Calls<Blob>, P: Pipes, R: Wait>(
    context: &SessionContext<'_, R>,
    me: &mut S,
    pipes: &P,
    state: SessionState<P::Input, P::Output>,
) -> SessionState<P::Input, P::Output>
    ensures { ServesOn P.Input.remaining P.Output.contents (P.opens pipes.now context.now.session) S.limits context.now.settings.now.is_far (S.shown me.old) (S.shown me.new) state result }
{
    match state {
        SessionState::Fresh => begin(context, me, pipes),
        SessionState::Left(left) => serve(context, me, left),
        SessionState::Ended(end) => SessionState::Ended(end),
    }
}

impl<'a, P: Pipes + Sync> RenewableWork<Blob> for Sessions<'a, P>
where
    P::Input: Send,
    P::Output: Send,
{
    ghost use Rattle.farcalls.specs.Serving.{ServesOn};

    type State = SessionState<P::Input, P::Output>;

    // On each connection the replies are those to its requests, by the calls of the session's terms and no
    // others.
    ghost done = { λ sessions worker l begun ended before after. ServesOn P.Input.remaining P.Output.contents (P.opens sessions.pipes.now worker) l sessions.settings.now.is_far begun ended before after };

    fn term<S: Calls<Blob>, R: Wait>(
        &self,
        rt: &R,
        alloc: Global,
        worker: u32,
        me: &mut S,
        state: SessionState<P::Input, P::Output>,
    ) -> SessionState<P::Input, P::Output> {
        let context = SessionContext {
            rt,
            alloc,
            settings: self.settings,
            pairs: self.pairs,
            renewal: self.renewal,
            reason: self.reason,
            session: worker,
        };
        serve_term(&context, me, self.pipes, state)
    }

    fn begins(&self, load_report: LoadReport) {
        self.pairs.begin(load_report.pairs);
        self.renewal.begin(load_report);
    }

    fn after(&self, states: &[SessionState<P::Input, P::Output>]) -> After {
        for state in states {
            if !matches!(state, SessionState::Ended(_)) {
                return After::Renewed;
            }
        }
        After::End
    }
}
