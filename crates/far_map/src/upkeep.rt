//! What keeps frames free: retired words are reclaimed or handed over, and objects are moved to the devices.
//!
//! # With the evictor's thread, and without
//!
//! Each session reclaims the retired word of its last call itself. If there are at least four times as many
//! frames as sessions, it fills the frame that this empties with its next object (`Caller::recycle`).
//!
//! If the evictor's thread runs, a session that found no frame also swaps an object out itself, at the same
//! time as others do. It hands over the retired words that it could not reclaim.
//!
//! There is no such thread if there is one worker, or if the thread could not be started. Then the evictor
//! does its work in the session's thread. So what a single worker meets depends only on its own calls.
ghost use Rattle.std.specs.Prelude.{◌≡◌, IfErr};
ghost use Rattle.version_words.specs.Views.{Goes};
ghost use Rattle.far_map.specs.Refusals.{IsTurnFault};
ghost use Rattle.far_map.specs.Spares.{LosesNone};

use crate::bytes::FrameBytes;
use crate::map::FarMap;
use crate::room::MOST_TRIES;
use crate::values::Value;
use far_device::Device;
use far_object::Text;
use hash_table::{Caller, Refusal as TableRefusal};
use std::sync::Wait;
use std::sync::atomic::Ordering;
use swapper::{Collected, Evictor, QueueNaming, QueueSeat, RoomMaker, reclaim_oldest};
use version_words::Naming;

/// How many turns are made at most before the evictor's lock is released. Others may wait for it.
const MOST_TURNS: u32 = 16;

/// A caller, its seat at the queue of retired words, and what it makes room by itself with.
#[derive(Drop)]
pub struct SessionState<V: Value, J: Naming, B: QueueNaming> {
    pub(crate) caller: Caller<Text, V, J>,
    pub(crate) seat: QueueSeat<Text, V, J, B>,
    pub(crate) room: RoomMaker,
    pub(crate) number: u32,
    // How many bytes its calls had brought into frames when it last reported that.
    pub(crate) told: i64,
}

impl<V: Value, J: Naming, B: QueueNaming, D: Device> FarMap<V, J, B, D> {
    /// Makes a turn of the evictor, and returns whether it emptied a frame. After a refusal the caller has
    /// seen what the evictor had seen.
    pub(crate) fn turn<R: Wait>(
        &self,
        rt: &R,
        caller: &mut Caller<Text, V, J>,
    ) -> Result<bool, TableRefusal>
        ensures goes { Goes caller.old.pass caller.new.pass }
        ensures limbo { caller.new.limbo ≡ caller.old.limbo }
        ensures why { IfErr result (IsTurnFault J.limits caller.new.pass.front) }
    {
        let mut evictor = self.evictor.lock(rt);
        match evictor.turn(rt, &self.table, &self.queue) {
            Ok(turn) => {
                self.keeps.store(turn.kept > 0, Ordering::SeqCst);
                self.bytes.tell_of_evictor(evictor.traffic().bytes);
                Ok(turn.evicted)
            }
            Err(refusal) => {
                self.keeps.store(true, Ordering::SeqCst);
                self.table.learn(caller, &evictor.mark());
                Err(refusal)
            }
        }
    }

    /// Whether the evictor's thread has frames to empty: fewer are free than it keeps free, or more bytes are
    /// in frames than may be.
    pub(crate) fn is_short(&self) -> bool {
        self.table.free() < self.reserve || self.bytes.is_above()
    }

    /// Makes turns while that is so, and returns whether they emptied a frame. The evictor is not released
    /// between them. A refusal is returned only if no turn before it emptied a frame.
    fn turns<R: Wait>(
        &self,
        rt: &R,
        evictor: &mut Evictor<Text, V, J, B>,
    ) -> Result<bool, TableRefusal>
        ensures why { IfErr result (IsTurnFault J.limits evictor.new.pass.front) }
    {
        let mut emptied = false;
        for _ in 0..MOST_TURNS {
            match evictor.turn(rt, &self.table, &self.queue) {
                Ok(turn) if turn.evicted => emptied = true,
                Ok(_) => break,
                Err(_) if emptied => break,
                Err(refusal) => return Err(refusal),
            }
            self.bytes.tell_of_evictor(evictor.traffic().bytes);
            if !self.is_short() {
                break;
            }
        }
        Ok(emptied)
    }

    /// Makes turns by the evictor's thread, and returns whether they emptied a frame.
    pub(crate) fn turns_by_thread<R: Wait>(&self, rt: &R) -> bool {
        let mut evictor = self.evictor.lock(rt);
        matches!(self.turns(rt, &mut evictor), Ok(true))
    }

    /// Makes turns for a caller. After a refusal it has seen what the evictor had seen.
    fn turns_for<R: Wait>(
        &self,
        rt: &R,
        caller: &mut Caller<Text, V, J>,
    ) -> Result<bool, TableRefusal>
        ensures goes { Goes caller.old.pass caller.new.pass }
        ensures limbo { caller.new.limbo ≡ caller.old.limbo }
        ensures why { IfErr result (IsTurnFault J.limits caller.new.pass.front) }
    {
        let mut evictor = self.evictor.lock(rt);
        match self.turns(rt, &mut evictor) {
            Ok(emptied) => Ok(emptied),
            Err(refusal) => {
                self.table.learn(caller, &evictor.mark());
                Err(refusal)
            }
        }
    }

    /// Has retired words reclaimed, and returns how many were, and whether the device failed.
    pub(crate) fn collect<R: Wait>(&self, rt: &R) -> Collected {
        let collected = self.evictor.lock(rt).collect(rt, &self.table, &self.queue);
        self.keeps.store(collected.kept > 0, Ordering::SeqCst);
        collected
    }

    /// Hands over the retired words that the caller's calls have left, if the queue has room.
    pub(crate) fn settle<R: Wait>(&self, rt: &R, session_state: &mut SessionState<V, J, B>)
        ensures pass { session_state.new.caller.pass ≡ session_state.old.caller.pass }
        ensures none_lost { LosesNone session_state.old.caller.limbo session_state.old.seat session_state.new.caller.limbo session_state.new.seat }
    {
        self.queue
            .settle(rt, &mut session_state.seat, &mut session_state.caller);
    }

    /// The caller swaps an object out itself. The retired words that waited are handed over first, so that
    /// the one which it reclaims then is that of the frame.
    fn make_own_room<R: Wait>(
        &self,
        rt: &R,
        session_state: &mut SessionState<V, J, B>,
    ) -> Result<bool, TableRefusal>
        ensures goes { Goes session_state.old.caller.pass session_state.new.caller.pass }
        ensures none_lost { LosesNone session_state.old.caller.limbo session_state.old.seat session_state.new.caller.limbo session_state.new.seat }
        ensures why { IfErr result (IsTurnFault J.limits session_state.new.caller.pass.front) }
    {
        self.settle(rt, session_state);
        session_state
            .room
            .make_room(rt, &self.table, &mut session_state.caller)
    }

    /// Makes room for a caller that found no frame.
    pub(crate) fn empty_frames<R: Wait>(
        &self,
        rt: &R,
        session_state: &mut SessionState<V, J, B>,
    ) -> Result<bool, TableRefusal>
        ensures goes { Goes session_state.old.caller.pass session_state.new.caller.pass }
        ensures none_lost { LosesNone session_state.old.caller.limbo session_state.old.seat session_state.new.caller.limbo session_state.new.seat }
        ensures why { IfErr result (IsTurnFault J.limits session_state.new.caller.pass.front) }
    {
        if !self.started.load(Ordering::SeqCst) {
            return self.turn(rt, &mut session_state.caller);
        }
        match self.make_own_room(rt, session_state) {
            Ok(false) => self.turns_for(rt, &mut session_state.caller),
            other => other,
        }
    }

    /// Has a frame ready before a change, if the caller found none lately.
    pub(crate) fn before_change<R: Wait>(&self, rt: &R, session_state: &mut SessionState<V, J, B>)
        ensures goes { Goes session_state.old.caller.pass session_state.new.caller.pass }
        ensures none_lost { LosesNone session_state.old.caller.limbo session_state.old.seat session_state.new.caller.limbo session_state.new.seat }
    {
        session_state
            .room
            .make_ready(rt, &self.table, &mut session_state.caller);
    }

    /// Reports how many bytes its calls have brought into frames, and returns whether too many are there.
    fn tell(&self, session_state: &mut SessionState<V, J, B>) -> bool
        ensures caller { session_state.new.caller ≡ session_state.old.caller }
        ensures seat { session_state.new.seat ≡ session_state.old.seat }
    {
        session_state.told = session_state.caller.traffic().bytes;
        self.bytes.tell(session_state.number, session_state.told);
        self.bytes.is_above()
    }

    /// Empties a frame if too many bytes are in frames, and returns whether it did.
    #[tactic(auto, using(crate::proofs::Losses::loses_self))]
    fn empty_above<R: Wait>(&self, rt: &R, session_state: &mut SessionState<V, J, B>) -> bool
        ensures goes { Goes session_state.old.caller.pass session_state.new.caller.pass }
        ensures none_lost { LosesNone session_state.old.caller.limbo session_state.old.seat session_state.new.caller.limbo session_state.new.seat }
    {
        if !self.tell(session_state) {
            return false;
        }
        matches!(self.empty_frames(rt, session_state), Ok(true))
    }

    /// Empties frames while too many bytes are in frames. It looks only if the caller's own count has changed
    /// by enough.
    #[tactic(auto, using(crate::proofs::Losses::loses_self))]
    fn keep_below<R: Wait>(&self, rt: &R, session_state: &mut SessionState<V, J, B>)
        ensures goes { Goes session_state.old.caller.pass session_state.new.caller.pass }
        ensures none_lost { LosesNone session_state.old.caller.limbo session_state.old.seat session_state.new.caller.limbo session_state.new.seat }
    {
        if !FrameBytes::is_due(session_state.told, session_state.caller.traffic().bytes) {
            return;
        }
        for _ in 0..MOST_TRIES {
            if !self.empty_above(rt, session_state) {
                break;
            }
        }
    }

    /// What follows each call: if too many bytes are in frames some are emptied, and the call's retired words
    /// are handled.
    pub(crate) fn after_call<R: Wait>(&self, rt: &R, session_state: &mut SessionState<V, J, B>)
        ensures goes { Goes session_state.old.caller.pass session_state.new.caller.pass }
        ensures none_lost { LosesNone session_state.old.caller.limbo session_state.old.seat session_state.new.caller.limbo session_state.new.seat }
    {
        self.keep_below(rt, session_state);
        self.see_to_spares(rt, session_state);
    }

    /// Hands over the retired words that its calls have left. Without the evictor's thread it then has them
    /// reclaimed, with those that came back before.
    #[tactic(auto, using(crate::proofs::Losses::loses_self))]
    fn hand_over<R: Wait>(&self, rt: &R, session_state: &mut SessionState<V, J, B>)
        ensures goes { Goes session_state.old.caller.pass session_state.new.caller.pass }
        ensures none_lost { LosesNone session_state.old.caller.limbo session_state.old.seat session_state.new.caller.limbo session_state.new.seat }
    {
        let alone = !self.started.load(Ordering::SeqCst);
        if session_state.caller.limbo_len() == 0 && !(alone && self.keeps.load(Ordering::SeqCst)) {
            return;
        }
        self.settle(rt, session_state);
        if alone {
            self.collect(rt);
        }
    }

    /// The caller reclaims its oldest retired word, which is mostly the only one. What still waits is handed
    /// over.
    fn recycle_own<R: Wait>(&self, rt: &R, session_state: &mut SessionState<V, J, B>)
        ensures goes { Goes session_state.old.caller.pass session_state.new.caller.pass }
        ensures none_lost { LosesNone session_state.old.caller.limbo session_state.old.seat session_state.new.caller.limbo session_state.new.seat }
    {
        reclaim_oldest(rt, &self.table, &mut session_state.caller);
        self.hand_over(rt, session_state);
    }

    /// Handles the retired words that its calls have left.
    fn see_to_spares<R: Wait>(&self, rt: &R, session_state: &mut SessionState<V, J, B>)
        ensures goes { Goes session_state.old.caller.pass session_state.new.caller.pass }
        ensures none_lost { LosesNone session_state.old.caller.limbo session_state.old.seat session_state.new.caller.limbo session_state.new.seat }
    {
        if session_state.caller.limbo_len() > 0 {
            self.recycle_own(rt, session_state);
        } else {
            self.hand_over(rt, session_state);
        }
    }
}
