//! Seats of the queue, and frames of clocks, with what their calls require.
ghost use Rattle.std.specs.Prelude.{◌≡◌, ◌<◌, [], length, true};
ghost use Rattle.version_words.specs.Views.{calls};

use crate::datum::Datum;
use crate::stop::Stop;
use hash_table::Caller;
use std::alloc::Global;
use std::sync::Wait;
use swapper::{Evictor, QueueNaming, QueueSeat, SpareQueue};
use table_core::word::name_of;
use version_words::Naming;

/// The seat that takes.
#[derive(Drop)]
pub struct Taker<T: Datum, J: Naming, B: QueueNaming> {
    seat: QueueSeat<T, T, J, B>,
    ghost takes: { seat.takes ≡ true },
}

impl<T: Datum, J: Naming, B: QueueNaming> Taker<T, J, B> {
    pub fn new(seat: QueueSeat<T, T, J, B>) -> Self
        requires { seat.takes ≡ true }
    {
        Taker { seat }
    }

    /// The name of the spare that is taken, which is dropped.
    pub fn take<R: Wait>(&mut self, rt: &R, queue: &SpareQueue<T, T, J, B>) -> Option<u64> {
        let spare = queue.take(rt, &mut self.seat)?;
        Some(name_of(spare.word()))
    }

    /// An evictor that has this seat, with room for so many spares of the queue.
    pub fn into_evictor(
        self,
        alloc: Global,
        own: Caller<T, T, J>,
        frames: u32,
        spares: u32,
    ) -> Result<Evictor<T, T, J, B>, Stop>
        requires { calls own.pass ≡ [] }
    {
        if frames == 0 {
            return Err(Stop::Mistake("a table has frames"));
        }
        let Taker { seat } = self;
        match Evictor::open(alloc, own, seat, frames, spares) {
            Ok(evictor) => Ok(evictor),
            Err(_) => Err(Stop::Memory),
        }
    }
}
