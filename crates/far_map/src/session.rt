//! A session: how one thread makes calls on the map.
ghost use Rattle.std.specs.Prelude.{◌≡◌};
ghost use Rattle.far_map.specs.Asks.{asked};
ghost use Rattle.far_map.specs.Answers.{Answers};
ghost use Rattle.far_map.specs.Counts.{Counts};

use crate::change_request::ChangeRequest;
use crate::changes::answer_and_keep;
use crate::map::FarMap;
use crate::refusal::MapRefusal;
use crate::stats::Stats;
use crate::upkeep::SessionState;
use crate::values::Value;
use far_device::Device;
use far_object::Text;
use hash_table::Caller;
use std::alloc::Global;
use std::marker::Model;
use std::sync::Wait;
use swapper::QueueNaming;
use version_words::Naming;

/// What one worker makes calls by: a pass of its own, with all that its calls need. Workers see it through
/// `Calls`.
///
/// Contracts see the pass, the most bytes of an object of the map, and what the session has counted.
#[derive(Drop)]
pub struct Session<'m, V: Value, J: Naming, B: QueueNaming, D: Device> {
    pub(crate) map: &'m FarMap<V, J, B, D>,
    pub(crate) alloc: Global,
    pub(crate) session_state: SessionState<V, J, B>,
    pub(crate) stats: Stats,
}

impl<'m, V: Value, J: Naming, B: QueueNaming, D: Device> Model for Session<'m, V, J, B, D> {
    ghost use Rattle.far_map.specs.Views.{SessionView};

    ghost Value = { SessionView V };

    ghost view = { λ s. record { pass = s.session_state.caller.pass; limit = s.map.now.table.limit; stats = s.stats } };
}

impl<'m, V: Value, J: Naming, B: QueueNaming, D: Device> Session<'m, V, J, B, D> {
    /// Makes one change.
    pub(crate) fn ask<R: Wait>(
        &mut self,
        rt: &R,
        ask: &ChangeRequest<'_, V>,
    ) -> Result<Option<V>, MapRefusal>
        ensures answers { Answers V.enc J.limits self.old self.new (asked ask.now) result }
        ensures counts { Counts self.old self.new (asked ask.now) result }
    {
        let answered = answer_and_keep(rt, self.alloc, self.map, &mut self.session_state, ask);
        self.stats.count_change(ask, &answered);
        answered
    }

    /// Ends the session, and gives back the frame that it owns. It returns the caller, which the end of the
    /// map needs.
    pub(crate) fn leave(self) -> Caller<Text, V, J>
        ensures { result.pass ≡ self.entry.pass }
    {
        let Session {
            map,
            alloc: _,
            session_state,
            stats: _,
        } = self;
        let SessionState {
            mut caller,
            seat: _,
            room: _,
            number: _,
            told: _,
        } = session_state;
        map.table.stop_recycling(&mut caller);
        caller
    }
}
