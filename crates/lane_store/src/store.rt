//! Lanes behind locks: one for each device.
//!
//! # What is said of a lane behind its lock
//!
//! No clause can name what lies behind a lock, since another thread may change it before the call and after. The functions
//! of `Lane`, which are lent the lane, say what each call does to it. Here stand the facts that a lane's type keeps whoever
//! had the lock before: each receipt is that of a name of this row of words, and its object is stored.
ghost use Rattle.std.specs.Prelude.{◌≡◌, ◌<◌, ◌≤◌, ◌+◌, ◌%◌, IfOk, OnOk, OnErr, IfSome, IfNone, vec_len};
ghost use Rattle.table_core.specs.BucketWords.{place_of, far_place};
ghost use Rattle.table_core.specs.Logs.{contents};
ghost use Rattle.lane_store.specs.Lanes.{IsRead};
ghost use Rattle.lane_store.specs.Stores.{WasStored};

use crate::fault::LaneFault;
use crate::lane::Lane;
use crate::receipt::Receipt;
use crossbeam_utils::{Backoff, CachePadded};
use far_device::Device;
use far_object::{FarObject, Format, Memory, Object};
use std::alloc::Global;
use std::marker::Model;
use std::sync::{Mutex, MutexGuard, Wait};
use table_core::word::name_of;
use version_words::{Name, Naming, Spare};

// How many times a lane is looked for before a thread sleeps for it. The looks come later and later, with 1,215 pauses of the
// processor between them in all: fewer left four threads on few frames sleeping for lanes, and more gained little.
const MOST_LOOKS: u32 = 24;

// Which of so many lanes keeps the object of a name.
fn lane_of(name: u64, lanes: usize) -> usize
    requires { 0 < lanes }
    ensures { result ≡ name % lanes }
{
    (name % lanes as u64) as usize
}

/// Lanes, each behind a lock of its own and alone on its cache lines. Every call takes `&self`, and threads share it. A
/// call but `count` waits while another thread has the name's lane, which is the name's number modulo the count of lanes.
/// Contracts see that count.
#[derive(Drop)]
pub struct LaneStore<K: FarObject, V: FarObject, J: Naming, D: Device> {
    lanes: Vec<CachePadded<Mutex<Lane<K, V, J, D>>>>,
}

impl<K: FarObject, V: FarObject, J: Naming, D: Device> Model for LaneStore<K, V, J, D> {
    ghost use Rattle.std.specs.Prelude.{ℕ, ◌<◌, vec_len};

    ghost Value = { ℕ };

    ghost view = { λ s. vec_len s.lanes };

    ghost invariant = { λ s. 0 < vec_len s.lanes };
}

impl<K: FarObject, V: FarObject, J: Naming, D: Device> LaneStore<K, V, J, D> {
    /// A lane for each device, each made by `Lane::open`. After a fault all of them are dropped.
    ///
    /// `Memory` comes where a growth is refused, `Device` where a device fails; no clause says so.
    pub fn open(alloc: Global, devices: Vec<D>) -> Result<LaneStore<K, V, J, D>, LaneFault>
        requires some { 0 < vec_len devices }
        requires most { vec_len devices ≤ 64 }
        ensures count { IfOk result (λ lanes. lanes ≡ vec_len devices) }
    {
        let mut lanes = Vec::with_capacity(alloc, devices.len())?;
        for device in devices {
            let lane = Lane::open(alloc, device)?;
            lanes.push(CachePadded::new(Mutex::new(lane)))?;
        }
        Ok(LaneStore { lanes })
    }

    /// How many lanes there are: as many as devices were handed in.
    pub fn count(&self) -> usize
        ensures count { result ≡ self.now }
        ensures some { 0 < result }
    {
        self.lanes.len()
    }

    // The name's lane, once its lock is free. A lock of the standard library spins too, but no longer once a thread sleeps
    // for it: then each that comes sleeps as well, and each that goes has to wake one.
    fn lane<R: Wait>(&self, rt: &R, name: u64) -> MutexGuard<'_, Lane<K, V, J, D>> {
        let lock: &Mutex<Lane<K, V, J, D>> = &self.lanes[lane_of(name, self.lanes.len())];
        let backoff = Backoff::new();
        for _ in 0..MOST_LOOKS {
            if let Some(lane) = lock.try_lock() {
                return lane;
            }
            backoff.spin();
        }
        lock.lock(rt)
    }

    /// Makes `Lane::write` on the name's lane, once its lock is free. What that does to the lane is said there: no clause
    /// can say it here but that, after Ok, it was done.
    pub fn write<R: Wait>(
        &self,
        rt: &R,
        name: &Name<K, V, J>,
        object: &Object<K, V>,
        format: Format,
    ) -> Result<(), LaneFault>
        requires object { contents name.now.front name.now.number ≡ object.now }
        ensures stored { OnOk result (WasStored format name.now.bucket name.now.number) }
    {
        let mut lane = self.lane(rt, name.number());
        lane.write(name, object, format)
    }

    /// Makes `Lane::read` on the name's lane, once its lock is free: appends the object of the name to `out`, and gives its
    /// receipt. Where none is answered, and after a fault, `out` is as before. That none is answered only where no receipt
    /// stands is said there, and can't be said here.
    pub fn read<R: Wait>(
        &self,
        rt: &R,
        name: u64,
        out: &mut Vec<u8>,
    ) -> Result<Option<Receipt<K, V, J>>, LaneFault>
        ensures found { IfOk result (λ receipt. IfSome receipt (λ r. IsRead K.enc V.enc K.admits V.admits J.limits D.HONEST name out.old.items out.new.items r)) }
        ensures absent { IfOk result (λ receipt. IfNone receipt (out.new.items ≡ out.old.items)) }
        ensures fault { OnErr result (out.new.items ≡ out.old.items) }
    {
        let mut lane = self.lane(rt, name);
        lane.read(name, out)
    }

    /// Makes `Lane::remove` on the name's lane, once its lock is free. What that does to the lane is said there: no clause
    /// can say it here.
    pub fn remove<R: Wait>(&self, rt: &R, spare: &Spare<K, V, J>) -> Result<bool, LaneFault>
        requires far { place_of spare.now.word ≡ far_place }
    {
        let mut lane = self.lane(rt, name_of(spare.word()));
        lane.remove(spare)
    }

    /// Removes the object of the name from its lane's device, as far as that does not fail, and no receipt stands for the name then.
    /// Only an exclusive owner of the lanes can do so, whose row of words is over: nobody else has a lane's lock, and no word is looked
    /// at any more that names the object.
    pub fn forget(&mut self, name: u64)
        ensures count { self.new ≡ self.old }
    {
        let lock: &Mutex<Lane<K, V, J, D>> = &self.lanes[lane_of(name, self.lanes.len())];
        if let Some(mut lane) = lock.try_lock() {
            let _ = lane.forget(name);
        }
    }

    /// The devices, in the order in which they were handed in, behind those of the list, whatever they hold. `Memory` comes where the
    /// list has no room for them and a growth is refused; all devices are dropped then.
    pub fn into_devices(self, mut devices: Vec<D>) -> Result<Vec<D>, Memory>
        ensures count { IfOk result (λ all. vec_len all ≡ vec_len devices + self) }
    {
        let LaneStore { lanes } = self;
        for lane in lanes {
            devices.push(lane.into_inner().into_inner().into_device())?;
        }
        Ok(devices)
    }
}
