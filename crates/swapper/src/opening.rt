//! A queue is opened in two steps, since what proofs call it is known only once it is there.
ghost use Rattle.std.specs.Prelude.{◌≡◌, ◌==◌, ◌<◌, [], true, vec_len, All, IfOk};
ghost use Rattle.swapper.specs.Seats.{seat_view, IsNew};

use crate::naming::QueueNaming;
use crate::queue::{Queue, QueueSeat, SpareQueue};
use crate::rule::SeatView;
use crossbeam_queue::Pass;
use far_object::{FarObject, Memory};
use std::alloc::Global;
use std::marker::{Model, PhantomData};
use version_words::{Naming, Spare};

/// An empty queue, which has no name yet. Contracts see what proofs call it, and for how many spares it has room.
#[derive(Drop)]
pub struct QueueOpening<K: FarObject, V: FarObject, J: Naming> {
    queue: Queue<Spare<K, V, J>>,
    pass: Pass<Spare<K, V, J>, SeatView<Spare<K, V, J>>>,
}

impl<K: FarObject, V: FarObject, J: Naming> Model for QueueOpening<K, V, J> {
    ghost use Rattle.std.specs.Prelude.{◌≡◌, [], true};
    ghost use Rattle.crossbeam_queue.specs.Passes.{IsPassOf, ruled_capacity};
    ghost use Rattle.swapper.specs.Namings.{QueueOpeningView};
    ghost use Rattle.swapper.specs.Seats.{seat_view};

    ghost Value = { QueueOpeningView };

    ghost view = { λ o. record { table = o.queue.table.shared.table_id; capacity = ruled_capacity o.queue } };

    ghost invariant = { λ o. IsPassOf o.queue o.pass × (o.pass.me.0.client ≡ seat_view [] 0 true true) };
}

impl<K: FarObject, V: FarObject, J: Naming> QueueOpening<K, V, J> {
    /// An empty queue with room for so many spares. `Memory` comes where a growth is refused.
    pub fn open(alloc: Global, capacity: u32) -> Result<QueueOpening<K, V, J>, Memory>
        requires { 0 < capacity }
        ensures { IfOk result (λ o. o.capacity ≡ capacity) }
    {
        match Queue::ruled(alloc, capacity as usize) {
            Ok((queue, pass)) => Ok(QueueOpening { queue, pass }),
            Err(_) => Err(Memory),
        }
    }

    /// The queue under a name, which the caller picks so that it fits: the seat that takes, which may hand over too, and so
    /// many other seats. `Memory` comes where a growth is refused; the queue is dropped then.
    pub fn named<B: QueueNaming>(
        self,
        alloc: Global,
        seats: u32,
    ) -> Result<
        (
            SpareQueue<K, V, J, B>,
            QueueSeat<K, V, J, B>,
            Vec<QueueSeat<K, V, J, B>>,
        ),
        Memory,
    >
        requires { self.table ≡ B.table }
        ensures capacity { IfOk result (λ r. r.0 ≡ self.capacity) }
        ensures taker { IfOk result (λ r. r.1 ≡ seat_view [] 0 (seats == 0) true) }
        ensures count { IfOk result (λ r. vec_len r.2 ≡ seats) }
        ensures others { IfOk result (λ r. All IsNew r.2.items) }
    {
        let Ok(mut others) = Vec::with_capacity(alloc, seats as usize) else {
            return Err(Memory);
        };
        let (queue, mut taker) = self.begun::<B>();
        for _ in 0..seats {
            match others.push(queue.another(&mut taker)) {
                Ok(()) => {}
                Err(_) => return Err(Memory),
            }
        }
        Ok((queue, taker, others))
    }

    // The queue and its first seat.
    fn begun<B: QueueNaming>(self) -> (SpareQueue<K, V, J, B>, QueueSeat<K, V, J, B>)
        requires { self.table ≡ B.table }
        ensures capacity { result.0 ≡ self.capacity }
        ensures seat { result.1 ≡ seat_view [] 0 true true }
    {
        let QueueOpening { queue, pass } = self;
        (
            SpareQueue {
                queue,
                of: PhantomData,
            },
            QueueSeat {
                pass,
                of: PhantomData,
            },
        )
    }
}
