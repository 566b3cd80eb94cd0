//! A caller gives a frame up itself, where no frame is free and the evictor has other things to do.
ghost use Rattle.version_words.specs.Views.{Goes};
ghost use Rattle.swapper.specs.Evictors.{GivesOneUp};

use crate::clock::Clock;
use crate::frames::TableFrames;
use far_device::Device;
use far_object::FarObject;
use hash_table::{Caller, FarTable, Refusal};
use std::sync::Wait;
use version_words::Naming;

impl Clock {
    /// Has the caller swap out the hand's victim among the table's frames, as an evictor's turn does: by as many callers side by
    /// side as there are clocks. True where an object went to the device; the spare of its frame waits in the caller's limbo
    /// then, and the frame is free once that is reclaimed. False where all frames are held, or where what lay in the victim is
    /// not what its bucket's word names.
    ///
    /// It is refused as a swap-out is: `LimboFull`, `Missed`, `Moved`, `NamesSpent`, `Memory` or `Device`, as
    /// `FarTable::swap_out` says when each comes.
    pub fn give_up<K: FarObject, V: FarObject, J: Naming, D: Device, R: Wait>(
        &mut self,
        rt: &R,
        table: &FarTable<K, V, J, D>,
        caller: &mut Caller<K, V, J>,
    ) -> Result<bool, Refusal>
        ensures goes { Goes caller.old.pass caller.new.pass }
        ensures given { GivesOneUp K.enc V.enc J.limits table.now.format caller.old caller.new self.old self.new result }
    {
        let count = self.frames();
        let Some(frame) = self.walk(&TableFrames { table, count }, caller) else {
            return Ok(false);
        };
        table.swap_out(rt, caller, frame)
    }
}
