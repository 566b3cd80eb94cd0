//! Spares go from thread to thread.
//!
//! # What is said of a queue that others use too
//!
//! No clause can name what the queue holds at a moment, since another thread may change it before the call and after. So
//! each seat has seen a beginning of one list of hand-overs and a number of takes, and each call tells of a point of that
//! history which the seat sees in the call. One seat alone takes: so its count of takes is exact, and that it finds the
//! queue empty says that all hand-overs it knows of were taken.
ghost use Rattle.std.specs.Prelude.{◌≡◌, ◌<◌, ◌≤◌, ◌+◌, length, false, true, MatchResult, MatchOption};
ghost use Rattle.crossbeam_queue.specs.Fifo.{Held};
ghost use Rattle.swapper.specs.Seats.{seat_view, HandsOver, TakesNext, Stands};

use crate::naming::QueueNaming;
use crate::rule::{HandingOver, InOrder, NewSeat, SeatView, Taking};
use crossbeam_queue::{Pass, RuledArrayQueue};
use far_object::FarObject;
use std::marker::{Model, PhantomData};
use std::sync::Wait;
use version_words::{Naming, Spare};

pub(crate) type Queue<T> = RuledArrayQueue<T, SeatView<T>, InOrder>;

/// A queue of spares that threads share. Contracts see for how many spares it has room.
#[derive(Drop)]
pub struct SpareQueue<K: FarObject, V: FarObject, J: Naming, B: QueueNaming> {
    pub(crate) queue: Queue<Spare<K, V, J>>,
    pub(crate) of: PhantomData<B>,
}

impl<K: FarObject, V: FarObject, J: Naming, B: QueueNaming> Model for SpareQueue<K, V, J, B> {
    ghost use Rattle.std.specs.Prelude.{◌≡◌, ℕ};
    ghost use Rattle.crossbeam_queue.specs.Passes.{ruled_capacity};

    ghost Value = { ℕ };

    ghost view = { λ q. ruled_capacity q.queue };

    ghost invariant = { λ q. q.queue.table.shared.table_id ≡ B.table };
}

/// What one thread knows of the queue, and its right to use it. Contracts see a beginning of the hand-overs and a number of
/// takes.
#[derive(Drop)]
pub struct QueueSeat<K: FarObject, V: FarObject, J: Naming, B: QueueNaming> {
    pub(crate) pass: Pass<Spare<K, V, J>, SeatView<Spare<K, V, J>>>,
    pub(crate) of: PhantomData<B>,
}

impl<K: FarObject, V: FarObject, J: Naming, B: QueueNaming> Model for QueueSeat<K, V, J, B> {
    ghost use Rattle.std.specs.Prelude.{◌≡◌, []};
    ghost use Rattle.version_words.specs.Views.{SpareView};
    ghost use Rattle.swapper.specs.declared.rule.SeatView.{SeatView};

    ghost Value = { SeatView (SpareView K V) };

    ghost view = { λ s. s.pass.me.0.client };

    ghost invariant = { λ s. (s.pass.table_id ≡ B.table) × (s.pass.me.1 ≡ []) };
}

impl<K: FarObject, V: FarObject, J: Naming, B: QueueNaming> SpareQueue<K, V, J, B> {
    // A new seat, which knows as much as the other, and never takes.
    pub(crate) fn another(&self, seat: &mut QueueSeat<K, V, J, B>) -> QueueSeat<K, V, J, B>
        ensures seat { seat.new ≡ seat_view seat.old.handed seat.old.taken false seat.old.takes }
        ensures other { result ≡ seat_view seat.old.handed seat.old.taken false false }
    {
        QueueSeat {
            pass: self.queue.another::<NewSeat>(&mut seat.pass),
            of: PhantomData,
        }
    }

    /// Hands the spare over as the last one. It comes back only where the queue was full at a moment of the call.
    pub fn hand_over<R: Wait>(
        &self,
        rt: &R,
        seat: &mut QueueSeat<K, V, J, B>,
        spare: Spare<K, V, J>,
    ) -> Result<(), Spare<K, V, J>>
        ensures { MatchResult result (λ _. HandsOver seat.old spare seat.new)
            (λ x. (x ≡ spare) × (seat.new ≡ seat.old) × Held self.now (Stands seat.old)) }
    {
        self.queue
            .push_as::<HandingOver, R>(rt, &mut seat.pass, spare)
    }

    /// The spare at the count of takes, which it raises. None only where every hand-over was taken at a moment of the call.
    /// The seat has to be the one that takes.
    pub fn take<R: Wait>(&self, rt: &R, seat: &mut QueueSeat<K, V, J, B>) -> Option<Spare<K, V, J>>
        requires { seat.old.takes ≡ true }
        ensures { MatchOption result ((seat.new ≡ seat.old) × (length seat.old.handed ≤ seat.old.taken) × Held 0 (Stands seat.old))
            (λ x. TakesNext seat.old x seat.new × (seat.new.taken ≡ seat.old.taken + 1)) }
    {
        self.queue.pop_as::<Taking, R>(rt, &mut seat.pass)
    }
}
