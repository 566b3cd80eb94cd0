//! What makes room in the frames of a table, and what becomes of the spares of its calls.
//!
//! # One spare, from its call to its end
//!
//! A call of a `Caller` leaves the word that it replaced as a spare in the caller's limbo. `SpareQueue::settle`
//! (`limbo.rt`) hands the limbo over, oldest first (`queue.rt`, over the rule in `rule.rt`). The `Evictor` (`evictor.rt`)
//! takes the spares out and has the table reclaim them (`evictor/collection.rt`); what comes back, since a reader is there or
//! the device failed, it keeps and tries again. Where frames are wanted it gives one up: its `Clock` (`clock.rt`) picks the
//! victim by second chance. A caller that can't wait for the evictor gives a frame up itself (`own_eviction.rt`),
//! and has one ready before its changes (`room.rt`).
#![tactic(auto)]

mod clock;
mod evictor;
mod flags;
mod frames;
mod limbo;
mod marks;
mod naming;
mod opening;
mod own_eviction;
mod queue;
mod room;
mod rule;

pub use clock::Clock;
pub use evictor::{Collected, Evictor, Turn};
pub use naming::QueueNaming;
pub use opening::QueueOpening;
pub use queue::{QueueSeat, SpareQueue};
pub use room::{RoomMaker, reclaim_oldest};
