//! The object of a word on the device.
ghost use Rattle.std.specs.Prelude.{◌≡◌, IsTrue, IfOk, IfErr};
ghost use Rattle.table_core.specs.BucketWords.{name_of};
ghost use Rattle.table_core.specs.Logs.{contents};
ghost use Rattle.version_words.specs.Views.{WasSeen};
ghost use Rattle.hash_table.specs.Stages.{IsUnreadFar};

use crate::refusal::Refusal;
use crate::table::FarTable;
use far_device::Device;
use far_object::{FarObject, Object};
use lane_store::LaneFault;
use std::alloc::Global;
use std::sync::Wait;
use table_core::word::name_of;
use version_words::{Naming, Pass, contents_stay, seen_stay};

impl<K: FarObject, V: FarObject, J: Naming, D: Device> FarTable<K, V, J, D> {
    /// Reads the object of a word from the device. The lane keeps a receipt for each object that it stored.
    /// The receipt's mark ties the object to what the pass (the caller's identity) has seen, as a version's
    /// mark does in a frame.
    pub(crate) fn read_device<R: Wait>(
        &self,
        rt: &R,
        alloc: Global,
        pass: &Pass<K, V, J>,
        b: u32,
        old: u64,
    ) -> Result<Object<K, V>, Refusal>
        requires seen { WasSeen K.enc J.limits.buckets pass.now.front b old }
        ensures object { IfOk result (λ o. IsTrue J.limits.honest → o ≡ contents pass.now.front (name_of old)) }
        ensures why { IfErr result (λ e. IsUnreadFar J.limits.honest e) }
    {
        contents_stay::<K, V>();
        seen_stay::<K, V>();
        let mut bytes = Vec::new(alloc);
        let receipt = match self.lanes.read(rt, name_of(old), &mut bytes) {
            Ok(Some(receipt)) => receipt,
            Ok(None) => return Err(Refusal::Missed),
            Err(LaneFault::Memory) => return Err(Refusal::Memory),
            Err(LaneFault::Device) => return Err(Refusal::Device),
        };
        let mut both = pass.mark();
        both.learn(receipt.mark());
        match Object::read_at(bytes, receipt.bucket(), receipt.number()) {
            Ok(object) => Ok(object),
            Err(_) => Err(Refusal::Damaged),
        }
    }
}
