//! What every step of the queue keeps: there is one list of hand-overs, which only grows, and one count of takes. What was
//! taken are the first hand-overs, in order, and the queue holds the others.
use crossbeam_queue::protocol::{Lesson, Outcome, Protocol, Split};
use std::collections::LinkedList;

/// What a seat has seen: a beginning of the list of all hand-overs, a number of takes, whether there is no other seat, and
/// whether it alone may take. No value of it is made.
pub struct SeatView<T> {
    pub handed: LinkedList<T>,
    pub taken: u64,
    pub alone: bool,
    pub takes: bool,
}

/// The rule.
pub struct InOrder;

impl<T> Protocol<T, SeatView<T>> for InOrder {
    ghost use Rattle.std.specs.Prelude.{true, []};
    ghost use Rattle.swapper.specs.Seats.{seat_view, IsInOrder};

    ghost holds = { λ items views. IsInOrder items views };

    ghost first = { seat_view [] 0 true true };
}

/// A new seat, which knows as much and never takes.
pub struct NewSeat;

impl<T> Split<SeatView<T>> for NewSeat {
    ghost use Rattle.std.specs.Prelude.{false};
    ghost use Rattle.swapper.specs.Seats.{seat_view};

    ghost left = { λ v. seat_view v.handed v.taken false v.takes };

    ghost right = { λ v. seat_view v.handed v.taken false false };
}

/// A hand-over.
pub struct HandingOver;

impl<T> Outcome<T, SeatView<T>> for HandingOver {
    ghost use Rattle.swapper.specs.Seats.{HandsOver};

    ghost then = { λ v x w. HandsOver v x w };
}

impl<T> Lesson<T, SeatView<T>> for HandingOver {
    ghost use Rattle.swapper.specs.Seats.{Stands};

    ghost fact = { λ v items. Stands v items };
}

/// A take.
pub struct Taking;

impl<T> Outcome<T, SeatView<T>> for Taking {
    ghost use Rattle.swapper.specs.Seats.{TakesNext};

    ghost then = { λ v x w. TakesNext v x w };
}

impl<T> Lesson<T, SeatView<T>> for Taking {
    ghost use Rattle.swapper.specs.Seats.{Stands};

    ghost fact = { λ v items. Stands v items };
}
