//! Spares are tried one after another. After the device failed, those with an object on it are passed over.
ghost use Rattle.std.specs.Prelude.{◌≡◌, ◌+◌, ◌-◌, ◌^◌, ◌<◌, ◌≤◌, ◌⊎◌, ◌↔◌, [], List, length, min, IsTrue, MatchBool, MatchOption, IfErr, OnOk};
ghost use mathlib.Core.List.{IsPrefix};
ghost use Rattle.version_words.specs.Views.{Goes, SpareView};
ghost use Rattle.hash_table.specs.Reclaims.{WasTried, IsReclaimed};
ghost use Rattle.swapper.specs.Evictors.{IsFar, KeepsLast, Tries, Stays, DrawsKept, DrawsOwn, DrawsNext, IsFull, IsDrained, Retries, Tried, PutsBehind};

use super::{Collected, Evictor};
use crate::naming::QueueNaming;
use crate::queue::SpareQueue;
use far_device::Device;
use far_object::FarObject;
use hash_table::{Caller, FarTable, ReclaimFault};
use std::sync::Wait;
use table_core::word::{FAR_PLACE, place_of};
use version_words::{Naming, Spare};

/// How many spares were reclaimed, and whether the device has failed in this collecting by then.
#[derive(Clone, Copy)]
pub(super) struct Attempts {
    pub(super) reclaimed: u64,
    pub(super) failed: bool,
}

impl Attempts {
    // These, and the next that were made, which began with what these ended with.
    pub(super) fn and(self, next: Attempts) -> Attempts
        ensures reclaimed { result.reclaimed ≡ min (self.reclaimed + next.reclaimed) (2 ^ 64 - 1) }
        ensures failed { result.failed ≡ next.failed }
    {
        Attempts {
            reclaimed: self.reclaimed.saturating_add(next.reclaimed),
            failed: next.failed,
        }
    }
}

// The table's `reclaim`, of which only what every collecting rests on is said: of a spare that comes back nothing else is
// known, so that it can't be let go.
fn reclaim<K: FarObject, V: FarObject, J: Naming, D: Device, R: Wait>(
    rt: &R,
    table: &FarTable<K, V, J, D>,
    caller: &mut Caller<K, V, J>,
    spare: Spare<K, V, J>,
) -> Result<(), (Spare<K, V, J>, ReclaimFault)>
    ensures goes { Goes caller.old.pass caller.new.pass }
    ensures limbo { caller.new.limbo ≡ caller.old.limbo }
    ensures told { IsPrefix spare.front caller.new.pass.front }
    ensures tried { WasTried spare }
    ensures reclaimed { OnOk result (IsReclaimed spare) }
    ensures back { IfErr result (λ e. e.0 ≡ spare) }
{
    match table.reclaim(rt, caller, spare) {
        Ok(_) => Ok(()),
        Err(back) => Err(back),
    }
}

// Whether the spare's object is on the device. No other spare asks it.
fn is_far<K: FarObject, V: FarObject, J: Naming>(spare: &Spare<K, V, J>) -> bool
    ensures { IsTrue result ↔ IsFar spare.now }
{
    place_of(spare.word()) == FAR_PLACE
}

impl<K: FarObject, V: FarObject, J: Naming, B: QueueNaming> Evictor<K, V, J, B> {
    // Whether one more can be kept.
    fn has_room(&self) -> bool
        ensures { MatchBool result (length self.now.kept < self.now.room) (self.now.room ≤ length self.now.kept) }
    {
        self.kept.len() < self.kept.capacity()
    }

    // How many spares are kept.
    pub(super) fn kept_len(&self) -> u64
        ensures { result ≡ length self.now.kept }
    {
        self.kept.len() as u64
    }

    // What the attempts of a collecting come to.
    pub(super) fn collected(&self, attempts: Attempts) -> Collected
        ensures reclaimed { result.reclaimed ≡ attempts.reclaimed }
        ensures kept { result.kept ≡ length self.now.kept }
        ensures failed { result.failed ≡ attempts.failed }
    {
        Collected {
            reclaimed: attempts.reclaimed,
            kept: self.kept_len(),
            failed: attempts.failed,
        }
    }

    // Keeps the spare as the last one.
    fn keep(&mut self, spare: Spare<K, V, J>)
        requires { length self.old.kept < self.old.room }
        ensures { KeepsLast self.old self.new spare }
    {
        let _ = self.kept.push_back(spare);
    }

    // Has the spare reclaimed, or keeps it as the last one. If the device `failed` before, a spare that would ask it is kept
    // untried.
    fn try_one<D: Device, R: Wait>(
        &mut self,
        rt: &R,
        table: &FarTable<K, V, J, D>,
        spare: Spare<K, V, J>,
        failed: bool,
    ) -> Attempts
        requires { length self.old.kept < self.old.room }
        ensures { Tries self.old self.new spare failed result.reclaimed result.failed }
    {
        let far = is_far(&spare);
        if failed && far {
            self.keep(spare);
            return Attempts {
                reclaimed: 0,
                failed: true,
            };
        }
        match reclaim(rt, table, &mut self.caller, spare) {
            Ok(()) => Attempts {
                reclaimed: 1,
                failed,
            },
            Err((back, fault)) => {
                self.keep(back);
                Attempts {
                    reclaimed: 0,
                    failed: failed || far && matches!(fault, ReclaimFault::Device),
                }
            }
        }
    }

    fn draw_kept(&mut self) -> Option<Spare<K, V, J>>
        ensures { MatchOption result ((self.old.kept ≡ []) × Stays self.old self.new) (λ s. DrawsKept self.old self.new s) }
    {
        self.kept.pop_front()
    }

    fn draw_own(&mut self) -> Option<Spare<K, V, J>>
        ensures { MatchOption result ((self.old.limbo ≡ []) × Stays self.old self.new) (λ s. DrawsOwn self.old self.new s) }
    {
        self.caller.take_spare()
    }

    fn draw_next<R: Wait>(
        &mut self,
        rt: &R,
        queue: &SpareQueue<K, V, J, B>,
    ) -> Option<Spare<K, V, J>>
        ensures { MatchOption result (IsDrained self.old.seat × Stays self.old self.new) (λ s. DrawsNext self.old self.new s) }
    {
        queue.take(rt, &mut self.seat)
    }

    // Deals with each kept spare once, from the first on.
    pub(super) fn retry<D: Device, R: Wait>(
        &mut self,
        rt: &R,
        table: &FarTable<K, V, J, D>,
    ) -> Attempts
        ensures { Retries self.old self.new result.reclaimed result.failed }
    {
        let mut all = Attempts {
            reclaimed: 0,
            failed: false,
        };
        let count = self.kept_len();
        for _k in 0..count {
            let Some(spare) = self.draw_kept() else {
                return all;
            };
            all = all.and(self.try_one(rt, table, spare, all.failed));
        }
        all
    }

    // Deals with the spares of its own limbo, while there is room.
    pub(super) fn empty_limbo<D: Device, R: Wait>(
        &mut self,
        rt: &R,
        table: &FarTable<K, V, J, D>,
        failed: bool,
    ) -> Attempts
        ensures tried { (went : List (SpareView K V)) × Tried self.old self.new went [] failed result.reclaimed result.failed }
        ensures stopped { IsFull self.new ⊎ (self.new.limbo ≡ []) }
    {
        let mut all = Attempts {
            reclaimed: 0,
            failed,
        };
        for _ in rt.forever() {
            if !self.has_room() {
                return all;
            }
            let Some(spare) = self.draw_own() else {
                return all;
            };
            all = all.and(self.try_one(rt, table, spare, all.failed));
        }
        unreachable!()
    }

    // Deals with the spares of the queue, while there is room.
    pub(super) fn empty_queue<D: Device, R: Wait>(
        &mut self,
        rt: &R,
        table: &FarTable<K, V, J, D>,
        queue: &SpareQueue<K, V, J, B>,
        failed: bool,
    ) -> Attempts
        ensures tried { (taken : List (SpareView K V)) × Tried self.old self.new [] taken failed result.reclaimed result.failed }
        ensures stopped { IsFull self.new ⊎ IsDrained self.new.seat }
    {
        let mut all = Attempts {
            reclaimed: 0,
            failed,
        };
        for _ in rt.forever() {
            if !self.has_room() {
                return all;
            }
            let Some(spare) = self.draw_next(rt, queue) else {
                return all;
            };
            all = all.and(self.try_one(rt, table, spare, all.failed));
        }
        unreachable!()
    }

    // If the device failed, puts the first kept spare behind the others. Otherwise one whose removal always fails would come
    // first in each collecting, and the device would not be asked for those behind it.
    pub(super) fn put_first_behind(&mut self, failed: bool)
        ensures { PutsBehind self.old self.new failed }
    {
        if !failed {
            return;
        }
        let Some(first) = self.draw_kept() else {
            return;
        };
        self.keep(first);
    }
}
