//! A caller that makes room by itself, side by side with others that do so.
//!
//! # Before a change, and not after it
//!
//! A change that finds no frame has read its bucket in vain, from the device where frames are few, and has made its object in
//! vain: it does both again once there is a frame. So a caller that found none has one ready before each further change, until
//! frames are named as free again.
ghost use Rattle.std.specs.Prelude.{◌<◌, IfErr};
ghost use Rattle.version_words.specs.Views.{Goes};
ghost use Rattle.hash_table.specs.Refusals.{OfSwapOut};
ghost use Rattle.swapper.specs.Rooms.{IsRecycled, LeavesRoom, MayLeaveRoom, WasRefusedBehind};

use crate::clock::Clock;
use far_device::Device;
use far_object::{FarObject, Memory};
use hash_table::{Caller, FarTable, Refusal};
use std::alloc::Global;
use std::sync::Wait;
use version_words::Naming;

/// What a caller makes room by: a clock of its own, and whether it found no frame of late. No clause says that a frame is free
/// after a call, for another caller may take it.
#[derive(Drop)]
pub struct RoomMaker {
    clock: Clock,
    lacks_frames: bool,
}

/// Reclaims the oldest spare that waits in the caller, where there is one; a spare that comes back waits as before. A caller that
/// recycles owns the frame then, where it had none (`Caller::recycle`).
pub fn reclaim_oldest<K: FarObject, V: FarObject, J: Naming, D: Device, R: Wait>(
    rt: &R,
    table: &FarTable<K, V, J, D>,
    caller: &mut Caller<K, V, J>,
)
    ensures goes { Goes caller.old.pass caller.new.pass }
    ensures limbo { IsRecycled caller.old.limbo caller.new.limbo }
{
    let _front = caller.mark();
    let _few = caller.limbo_len();
    let Some(spare) = caller.take_spare() else {
        return;
    };
    let Err((back, _)) = table.reclaim(rt, caller, spare) else {
        return;
    };
    let _ = caller.return_spare(back);
}

// The frame behind the part of all frames that the number's bits in their other order are of 2^32: so those of two, of four and
// of eight numbers in a row lie as far apart as they can.
fn frame_apart(number: u32, frames: u32) -> u32
    requires { 0 < frames }
    ensures { result < frames }
{
    let behind = u64::from(number.reverse_bits()) * u64::from(frames) >> 32;
    behind as u32 % frames
}

impl RoomMaker {
    /// One for a table of so many frames, whose hand begins far from those of other numbers. Nothing of it grows later.
    /// `Memory` comes where a growth is refused.
    pub fn open(alloc: Global, frames: u32, number: u32) -> Result<RoomMaker, Memory>
        requires { 0 < frames }
    {
        let mut clock = Clock::open(alloc, frames)?;
        clock.point_to(frame_apart(number, frames));
        Ok(RoomMaker {
            clock,
            lacks_frames: false,
        })
    }

    /// For a caller whose change was refused with `NoFrame`: it gives a frame up, and reclaims its oldest spare. Where none
    /// waited in its limbo that is the one of this frame, and its next try fills it.
    ///
    /// True where an object went to the device, false where no frame could be given up, which leaves the spares as they were. It
    /// is refused as `Clock::give_up` is, which may leave the spare of the name that the swap-out drew.
    pub fn make_room<K: FarObject, V: FarObject, J: Naming, D: Device, R: Wait>(
        &mut self,
        rt: &R,
        table: &FarTable<K, V, J, D>,
        caller: &mut Caller<K, V, J>,
    ) -> Result<bool, Refusal>
        ensures goes { Goes caller.old.pass caller.new.pass }
        ensures limbo { LeavesRoom caller.old.limbo caller.new.limbo result }
        ensures refused { IfErr result (λ e. WasRefusedBehind K.enc V.enc J.limits caller.old.pass caller.new.pass e) }
        ensures only { IfErr result (λ e. OfSwapOut e) }
    {
        self.lacks_frames = true;
        match self.clock.give_up(rt, table, caller) {
            Ok(true) => {}
            Ok(false) => return Ok(false),
            Err(refusal) => return Err(refusal),
        }
        reclaim_oldest(rt, table, caller);
        Ok(true)
    }

    /// For a caller that is about to make a change: where it found no frame of late, owns none and none is named as free, it
    /// makes room now. Where that is refused the change meets the reason itself.
    pub fn make_ready<K: FarObject, V: FarObject, J: Naming, D: Device, R: Wait>(
        &mut self,
        rt: &R,
        table: &FarTable<K, V, J, D>,
        caller: &mut Caller<K, V, J>,
    )
        ensures goes { Goes caller.old.pass caller.new.pass }
        ensures limbo { MayLeaveRoom caller.old.limbo caller.new.limbo }
    {
        if !self.lacks_frames || caller.owns_frame() {
            return;
        }
        if table.has_free() {
            self.lacks_frames = false;
            return;
        }
        let _ = self.make_room(rt, table, caller);
    }
}
