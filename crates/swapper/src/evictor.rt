//! The evictor: it has spares reclaimed, and gives frames up.
//!
//! # Behind a lock
//!
//! Threads share an evictor behind one `Mutex`. Nothing is known of what lies there but what its type keeps: its caller
//! has made no call, its seat is the one that takes, and both are of this table and this queue. So nothing that it does is
//! a call of the history, and no answer of the table changes by it.
ghost use Rattle.std.specs.Prelude.{◌≡◌, ◌+◌, ◌<◌, ◌≤◌, [], true, false, length, replicate, IfOk, IfErr, MatchBool};
ghost use Rattle.table_core.specs.Lawful.{IsLawful};
ghost use Rattle.version_words.specs.Views.{Goes, calls};
ghost use Rattle.hash_table.specs.Refusals.{OfSwapOut};
ghost use Rattle.swapper.specs.Evictors.{Collecting, Collects, Picks, GivesUp, IsTurn, IsTurnRefused, Turns};

mod collection;

use crate::clock::Clock;
use crate::frames::TableFrames;
use crate::naming::QueueNaming;
use crate::queue::{QueueSeat, SpareQueue};
use far_device::Device;
use far_object::{FarObject, Memory};
use hash_table::{Caller, FarTable, Refusal, Traffic};
use std::alloc::Global;
use std::collections::VecDeque;
use std::marker::Model;
use std::sync::Wait;
use version_words::{Mark, Naming, Spare};

/// How many spares a collecting had reclaimed, how many are kept, and whether the device failed.
#[derive(Clone, Copy, Debug, PartialEq, Eq)]
pub struct Collected {
    pub reclaimed: u64,
    pub kept: u64,
    pub failed: bool,
}

/// Whether a turn swapped a frame out, how many spares it had reclaimed, and how many are kept.
#[derive(Clone, Copy, Debug, PartialEq, Eq)]
pub struct Turn {
    pub evicted: bool,
    pub reclaimed: u64,
    pub kept: u64,
}

/// How many more spares than the queue holds are kept: those of a whole limbo.
const LIMBO: u32 = 64;

/// It has spares reclaimed, keeps those that come back, and gives frames up by second chance. Its caller has made no call,
/// and its seat is the one that takes. Contracts see these parts.
#[derive(Drop)]
pub struct Evictor<K: FarObject, V: FarObject, J: Naming, B: QueueNaming> {
    caller: Caller<K, V, J>,
    seat: QueueSeat<K, V, J, B>,
    clock: Clock,
    // Each collecting tries them from the first on.
    kept: VecDeque<Spare<K, V, J>>,
}

impl<K: FarObject, V: FarObject, J: Naming, B: QueueNaming> Model for Evictor<K, V, J, B> {
    ghost use Rattle.std.specs.Prelude.{◌≡◌, [], true};
    ghost use Rattle.std.specs.VecDeque.{deque_capacity};
    ghost use Rattle.version_words.specs.Views.{calls};
    ghost use Rattle.swapper.specs.Evictors.{EvictorView};

    ghost Value = { EvictorView K V };

    ghost view = { λ e. record { pass = e.caller.pass; limbo = e.caller.limbo; seat = e.seat; clock = e.clock; kept = e.kept.items; room = deque_capacity e.kept } };

    ghost invariant = { λ e. (calls e.caller.pass ≡ []) × (e.seat.takes ≡ true) };
}

impl<K: FarObject, V: FarObject, J: Naming, B: QueueNaming> Evictor<K, V, J, B> {
    /// An evictor for so many frames, with room for `capacity` spares and 64 more to keep: as many as the queue and a limbo
    /// hold. Nothing of it grows later. `Memory` comes where a growth is refused, and caller and seat come back with it.
    pub fn open(
        alloc: Global,
        caller: Caller<K, V, J>,
        seat: QueueSeat<K, V, J, B>,
        frames: u32,
        capacity: u32,
    ) -> Result<Evictor<K, V, J, B>, (Memory, Caller<K, V, J>, QueueSeat<K, V, J, B>)>
        requires no_calls { calls caller.pass ≡ [] }
        requires takes { seat.takes ≡ true }
        requires some { 0 < frames }
        ensures caller { IfOk result (λ e. (e.pass ≡ caller.pass) × (e.limbo ≡ caller.limbo)) }
        ensures seat { IfOk result (λ e. e.seat ≡ seat) }
        ensures clock { IfOk result (λ e. (e.clock.marks ≡ replicate frames false) × (e.clock.hand ≡ 0)) }
        ensures room { IfOk result (λ e. (e.kept ≡ []) × (e.room ≡ capacity + 64)) }
        ensures back { IfErr result (λ e. (e.1 ≡ caller) × (e.2 ≡ seat)) }
    {
        let Ok(clock) = Clock::open(alloc, frames) else {
            return Err((Memory, caller, seat));
        };
        let Ok(kept) = VecDeque::with_capacity(alloc, capacity as usize + LIMBO as usize) else {
            return Err((Memory, caller, seat));
        };
        Ok(Evictor {
            caller,
            seat,
            clock,
            kept,
        })
    }

    /// A mark of what its caller has seen.
    pub fn mark(&self) -> Mark<K, V, J>
        ensures front { result ≡ self.now.pass.front }
        ensures lawful { IsLawful K.enc V.enc J.limits result }
    {
        self.caller.mark()
    }

    /// What its caller's swap-outs and reclamations did. Nothing is claimed of it.
    pub fn traffic(&self) -> Traffic {
        self.caller.traffic()
    }

    /// Its caller, who has made no call. The spares that it keeps are dropped: what they name stays taken.
    pub fn into_caller(self) -> Caller<K, V, J>
        ensures no_calls { calls result.pass ≡ [] }
        ensures same { (result.pass ≡ self.pass) × (result.limbo ≡ self.limbo) }
    {
        let Evictor {
            caller,
            seat: _,
            clock: _,
            kept: _,
        } = self;
        caller
    }

    /// Has each kept spare reclaimed once, then those of its own limbo and of the queue while there is room to keep one
    /// more. What comes back is kept behind the others: a reader is there, the device failed or a growth was refused. It never
    /// refuses, and takes no memory of its own.
    ///
    /// Once the device failed it is not asked again. Spares whose objects are on it are kept untried, and the others are
    /// tried: so a device that fails holds no frame back, while there is room to keep what it refuses. `failed` says that it
    /// failed. The first kept spare then goes behind the others, so that each comes first in its turn: one whose removal always
    /// fails does not hold up the others for good.
    pub fn collect<D: Device, R: Wait>(
        &mut self,
        rt: &R,
        table: &FarTable<K, V, J, D>,
        queue: &SpareQueue<K, V, J, B>,
    ) -> Collected
        ensures { Collecting self.old self.new result }
    {
        let again = self.retry(rt, table);
        let own = again.and(self.empty_limbo(rt, table, again.failed));
        let all = own.and(self.empty_queue(rt, table, queue, own.failed));
        self.put_first_behind(all.failed);
        self.collected(all)
    }

    /// Collects, gives one frame up by second chance, and collects again. `evicted` says whether a frame was swapped out.
    ///
    /// A refusal of the swap-out ends the turn and is its answer: `LimboFull`, `Missed`, `Moved`, `NamesSpent`, `Memory` or
    /// `Device`, as `FarTable::swap_out` says when each comes.
    pub fn turn<D: Device, R: Wait>(
        &mut self,
        rt: &R,
        table: &FarTable<K, V, J, D>,
        queue: &SpareQueue<K, V, J, B>,
    ) -> Result<Turn, Refusal>
        ensures turn { IfOk result (λ t. IsTurn K.enc V.enc J.limits table.now.format self.old self.new t) }
        ensures refused { IfErr result (λ e. IsTurnRefused K.enc V.enc J.limits table.now.format self.old self.new e) }
        ensures turns { Turns self.old self.new }
        ensures only { IfErr result (λ e. OfSwapOut e) }
    {
        let first = self.collect(rt, table, queue);
        let Some(frame) = self.victim(table) else {
            let last = self.collect(rt, table, queue);
            return Ok(Turn {
                evicted: false,
                reclaimed: first.reclaimed.saturating_add(last.reclaimed),
                kept: last.kept,
            });
        };
        let evicted = match self.give_up(rt, table, frame) {
            Ok(evicted) => evicted,
            Err(refusal) => return Err(refusal),
        };
        let last = self.collect(rt, table, queue);
        Ok(Turn {
            evicted,
            reclaimed: first.reclaimed.saturating_add(last.reclaimed),
            kept: last.kept,
        })
    }

    // The hand's victim among the table's frames.
    fn victim<D: Device>(&mut self, table: &FarTable<K, V, J, D>) -> Option<u32>
        ensures { Picks self.old self.new result }
    {
        let count = self.clock.frames();
        self.clock
            .walk(&TableFrames { table, count }, &mut self.caller)
    }

    // Swaps out what lies in the frame.
    fn give_up<D: Device, R: Wait>(
        &mut self,
        rt: &R,
        table: &FarTable<K, V, J, D>,
        frame: u32,
    ) -> Result<bool, Refusal>
        ensures { GivesUp K.enc V.enc J.limits table.now.format self.old self.new frame result }
    {
        table.swap_out(rt, &mut self.caller, frame)
    }
}
