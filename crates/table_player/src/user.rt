//! A caller of a case, and what it has in hand.

use crate::datum::Datum;
use crate::site::{Site, Table};
use crate::stop::Stop;
use far_device::Device;
use hash_table::{Caller, ReclaimFault};
use std::alloc::Global;
use std::sync::Wait;
use swapper::{Clock, QueueNaming, QueueSeat, RoomMaker};
use table_core::word::name_of;
use version_words::{EnterFault, Naming, Spare};

/// How often a pass is drawn while other threads draw.
const TRIES: u32 = 1_000_000;

/// A caller that enters also while others do, or none where no pass is left.
pub fn entered<T: Datum, J: Naming, D: Device>(table: &Table<T, J, D>) -> Option<Caller<T, T, J>> {
    for _ in 0..TRIES {
        match table.enter() {
            Ok(caller) => return Some(caller),
            Err(EnterFault::PassesSpent(_)) => return None,
            Err(EnterFault::Moved(_)) => {}
        }
    }
    None
}

/// What a caller has in hand.
#[derive(Drop)]
pub struct Hands<T: Datum, J: Naming, B: QueueNaming> {
    pub seat: Option<QueueSeat<T, T, J, B>>,
    pub taken: Option<Spare<T, T, J>>,
    pub clock: Option<Clock>,
    pub room: Option<RoomMaker>,
}

/// A caller by its name in the case.
#[derive(Drop)]
pub struct User<T: Datum, J: Naming, B: QueueNaming> {
    pub name: Vec<u8>,
    pub caller: Caller<T, T, J>,
    pub hands: Hands<T, J, B>,
}

impl<T: Datum, J: Naming, B: QueueNaming> User<T, J, B> {
    /// A caller who enters under this name, with a seat of the queue where one is left. None where no pass is left.
    pub fn enter<D: Device>(
        table: &Table<T, J, D>,
        name: Vec<u8>,
        seat: Option<QueueSeat<T, T, J, B>>,
    ) -> Option<Self> {
        let caller = entered(table)?;
        let hands = Hands {
            seat,
            taken: None,
            clock: None,
            room: None,
        };
        Some(User {
            name,
            caller,
            hands,
        })
    }

    /// Reclaims the oldest spare. Where that is refused, it is the oldest again. None where no spare waits.
    pub fn reclaim<R: Wait, D: Device>(
        &mut self,
        rt: &R,
        table: &Table<T, J, D>,
    ) -> Option<Result<bool, ReclaimFault>> {
        let spare = self.caller.take_spare()?;
        match table.reclaim(rt, &mut self.caller, spare) {
            Ok(there) => Some(Ok(there)),
            Err((spare, fault)) => {
                if self.caller.return_spare(spare).is_ok() {
                    Some(Err(fault))
                } else {
                    None
                }
            }
        }
    }

    /// Reclaims what waits, up to a spare whose version is read at that moment.
    pub fn reclaim_all<R: Wait, D: Device>(&mut self, rt: &R, table: &Table<T, J, D>) {
        for _ in 0..self.caller.limbo_len() {
            match self.reclaim(rt, table) {
                Some(Ok(_)) => {}
                _ => return,
            }
        }
    }

    /// Takes the oldest spare out, and holds it. Whether there was one.
    pub fn take_spare(&mut self) -> bool {
        self.hands.taken = self.caller.take_spare();
        self.hands.taken.is_some()
    }

    /// Puts the spare that is held back as the oldest. Where it comes back, it is held again.
    pub fn return_spare(&mut self) -> bool {
        let Some(spare) = self.hands.taken.take() else {
            return false;
        };
        match self.caller.return_spare(spare) {
            Ok(()) => true,
            Err(spare) => {
                self.hands.taken = Some(spare);
                false
            }
        }
    }

    /// The name of the spare that is held.
    pub fn held_spare(&self) -> Option<u64> {
        match &self.hands.taken {
            Some(spare) => Some(name_of(spare.word())),
            None => None,
        }
    }

    /// The name of the oldest spare, which stays.
    pub fn oldest_spare(&mut self) -> Option<u64> {
        let spare = self.caller.take_spare()?;
        let name = name_of(spare.word());
        match self.caller.return_spare(spare) {
            Ok(()) => Some(name),
            Err(_) => None,
        }
    }

    /// Opens a clock of the caller's own, where it has none.
    pub fn open_clock<D: Device>(&mut self, site: &Site<'_, T, J, B, D>) -> Result<(), Stop> {
        if self.hands.clock.is_some() {
            return Ok(());
        }
        if site.frames == 0 {
            return Err(Stop::Mistake("a table has frames"));
        }
        match Clock::open(site.alloc, site.frames) {
            Ok(clock) => {
                self.hands.clock = Some(clock);
                Ok(())
            }
            Err(_) => Err(Stop::Memory),
        }
    }
}
