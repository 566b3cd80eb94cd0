//! Devices whose objects are in a store that speaks the protocol of Redis.
ghost use Rattle.std.specs.Prelude.{◌≡◌};
ghost use Rattle.digests.specs.Collisions.{nothing_collided};
ghost use Rattle.resp_device.specs.Devices.{state_in};

use crate::devices::keys_of;
use crate::fault::FarserveFault;
use crate::link::Link;
use crate::pipes::open_pair;
use crate::resting_store::RestingStore;
use far_device::{Device, DeviceFault};
use far_server::FarUsage;
use resp_device::{RespDevice, StoreFailure};
use std::alloc::Global;
use std::collections::HashSet;
use std::fs::File;
use std::random::RandomSource;
use std::rt::{Clock, Files};

/// The number of the first device's pipes. Those of the workers have lower ones.
const LINKS: u32 = 1 << 16;

/// A device over a store. If its last connection is over, it asks for another one. It reports to INFO how
/// many objects it keeps, and how many of them the store has lost.
#[derive(Drop)]
pub struct StoreDevice<'a> {
    pub(crate) inner: RespDevice<Link>,
    /// Objects that were asked for, and that the store no longer had. One is not counted if there is no
    /// memory to note it.
    lost: HashSet<u64>,
    usage: &'a FarUsage,
}

/// What a device has reported.
#[derive(Clone, Copy)]
struct Told {
    objects: u64,
    lost: u64,
}

impl<'a> StoreDevice<'a> {
    /// A device over an empty one, of which nothing was reported yet.
    fn new(alloc: Global, inner: RespDevice<Link>, usage: &'a FarUsage) -> Self
        ensures { result.inner ≡ inner }
    {
        StoreDevice {
            inner,
            lost: HashSet::new(alloc),
            usage,
        }
    }

    fn told(&self) -> Told {
        Told {
            objects: self.inner.len() as u64,
            lost: self.lost.len() as u64,
        }
    }

    /// Reports what has changed since `before`.
    fn tell(&self, before: Told) {
        let now = self.told();
        self.usage.tell_objects(before.objects, now.objects);
        self.usage.tell_lost(before.lost, now.lost);
    }

    /// Why the last call that failed did so. None if no call has failed.
    pub fn last_failure(&self) -> Option<StoreFailure> {
        self.inner.last_failure()
    }

    /// Asks for another connection if the last one can't be used. The gateway gives one, or reports at once
    /// that there is none.
    fn join(&mut self)
        ensures { state_in self.new.inner ≡ state_in self.old.inner }
    {
        if !self.inner.is_live() {
            let last = self.inner.reconnect(Link::none());
            let _ = self.inner.reconnect(last.next());
        }
    }
}

impl Device for StoreDevice<'_> {
    ghost state = { λ device. state_in device.inner };

    ghost HONEST = { nothing_collided };

    fn construct(&mut self) -> Result<(), DeviceFault> {
        let before = self.told();
        let result = self.inner.construct();
        self.lost.clear();
        self.tell(before);
        result
    }

    fn write(&mut self, id: u64, bytes: &[u8]) -> Result<(), DeviceFault> {
        let before = self.told();
        self.join();
        let result = self.inner.write(id, bytes);
        if result.is_ok() {
            let _ = self.lost.remove(&id);
        }
        self.tell(before);
        result
    }

    fn read(&mut self, id: u64, out: &mut Vec<u8>) -> Result<bool, DeviceFault> {
        let before = self.told();
        self.join();
        let result = self.inner.read(id, out);
        if result == Err(DeviceFault::Failed)
            && self.inner.last_failure() == Some(StoreFailure::Lost)
        {
            let _ = self.lost.insert(id);
        }
        self.tell(before);
        result
    }

    fn remove(&mut self, id: u64) -> Result<bool, DeviceFault> {
        let before = self.told();
        self.join();
        let result = self.inner.remove(id);
        if result.is_ok() {
            let _ = self.lost.remove(&id);
        }
        self.tell(before);
        result
    }

    fn failures(&self) -> u64 {
        self.inner.failures()
    }
}

/// Opens `count` devices, 64 at most, over links to the store. Waits until the gateway has opened their pipes
/// in this folder.
///
/// `FarserveFault::Links` is returned if a pipe can't be opened, `FarserveFault::Random` if the system gives no random bytes,
/// and `FarserveFault::Memory` if an allocation fails.
pub fn open_stores<'a, 'b, R>(
    rt: R,
    folder: &str,
    count: u32,
    usage: &'b FarUsage,
) -> Result<Vec<RestingStore<'b, R>>, FarserveFault<'a>>
where
    R: Files<File = File> + AllocGlobal + RandomSource + Clock + Copy + Drop,
{
    let alloc = rt.alloc();
    let mut devices = Vec::new(alloc);
    for lane in 0..count.min(64) {
        let (Ok(replies), Ok(requests)) = (
            format!(in alloc; "{folder}/far-replies{lane}"),
            format!(in alloc; "{folder}/far-requests{lane}"),
        ) else {
            return Err(FarserveFault::Memory);
        };
        let Ok((replies, requests)) = open_pair(
            &rt,
            alloc,
            replies.as_str(),
            requests.as_str(),
            LINKS + lane,
        ) else {
            return Err(FarserveFault::Links);
        };
        let keys = keys_of(&rt)?;
        let mut prefix = [0; 16];
        if let Err(fault) = rt.fill_bytes(&mut prefix) {
            return Err(FarserveFault::Random(fault));
        }
        let Ok(device) = RespDevice::new(
            alloc,
            Link::new(replies, requests),
            prefix,
            lane as u8,
            keys,
        ) else {
            return Err(FarserveFault::Memory);
        };
        let device = StoreDevice::new(alloc, device, usage);
        if devices.push(RestingStore::new(device, rt, usage)).is_err() {
            return Err(FarserveFault::Memory);
        }
    }
    Ok(devices)
}
