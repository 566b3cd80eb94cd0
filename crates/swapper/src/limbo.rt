//! A limbo is handed over.
ghost use Rattle.std.specs.Prelude.{◌≡◌, ◌≤◌, ◌<◌, take, drop, length};
ghost use Rattle.crossbeam_queue.specs.Fifo.{Held};
ghost use Rattle.swapper.specs.Seats.{HandsAll, Stands};

use crate::naming::QueueNaming;
use crate::queue::{QueueSeat, SpareQueue};
use far_object::FarObject;
use hash_table::Caller;
use std::sync::Wait;
use version_words::Naming;

impl<K: FarObject, V: FarObject, J: Naming, B: QueueNaming> SpareQueue<K, V, J, B> {
    /// Hands over from the caller's oldest spare on, until none is left or the queue is full, and answers how many went.
    /// The others stay in order. It takes no memory.
    pub fn settle<R: Wait>(
        &self,
        rt: &R,
        seat: &mut QueueSeat<K, V, J, B>,
        caller: &mut Caller<K, V, J>,
    ) -> u32
        ensures most { result ≤ length caller.old.limbo }
        ensures rest { caller.new.limbo ≡ drop result caller.old.limbo }
        ensures went { HandsAll seat.old (take result caller.old.limbo) seat.new }
        ensures full { result < length caller.old.limbo → Held self.now (Stands seat.new) }
        ensures pass { caller.new.pass ≡ caller.old.pass }
    {
        let _few = caller.limbo_len();
        let mut went = 0u32;
        'left: while let Some(oldest) = caller.take_spare() {
            if let Err(back) = self.hand_over(rt, seat, oldest) {
                let _ = caller.return_spare(back);
                return went;
            }
            went += 1;
        }
        went
    }
}
