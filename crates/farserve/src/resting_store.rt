//! A store that is left alone for a while after it has failed.
//!
//! A call to a store that is away can take as long as the store may be silent, and others wait for it
//! meanwhile. A store that refuses writes would be asked again and again, by each caller that needs room. So
//! after such a failure no call of this kind is made for a while: each fails at once.
ghost use Rattle.digests.specs.Collisions.{nothing_collided};

use crate::reasons::reason_of_store;
use crate::rest::Rest;
use crate::stores::StoreDevice;
use far_device::{Device, DeviceFault};
use far_server::{DeviceReason, FarUsage};
use resp_device::StoreFailure;
use std::rt::Clock;

/// A device over a store that makes no call while it rests. It reports to INFO whether it rests, and why calls
/// fail. A call that is not made fails for the reason for which the store rests.
///
/// Reads rest on their own, because a store may answer them while it refuses writes and removals, as a
/// replica does. Reads don't rest after an error reply. It arrives soon. It may also be a proxy's, for one of
/// several stores, and objects in the other stores can be read.
#[derive(Drop)]
pub struct RestingStore<'a, C> {
    inner: StoreDevice<'a>,
    clock: C,
    reads: Rest,
    writes: Rest,
    /// Why the last read failed, and the last write or removal. A call that is not made has this reason.
    read_reason: DeviceReason,
    write_reason: DeviceReason,
    /// Calls that failed because they were not made.
    rested: u64,
    usage: &'a FarUsage,
}

/// Whether a call with this failure may have taken long. This is not so for a failure of one object, an error
/// reply, or an allocation that failed here.
fn is_away(failure: Option<StoreFailure>) -> bool {
    !matches!(
        failure,
        None | Some(StoreFailure::Lost)
            | Some(StoreFailure::Damaged)
            | Some(StoreFailure::TooLong)
            | Some(StoreFailure::Memory)
            | Some(StoreFailure::Refused)
    )
}

impl<'a, C: Clock> RestingStore<'a, C> {
    /// One that does not rest.
    pub fn new(inner: StoreDevice<'a>, clock: C, usage: &'a FarUsage) -> Self {
        RestingStore {
            inner,
            clock,
            reads: Rest::none(),
            writes: Rest::none(),
            read_reason: DeviceReason::Other,
            write_reason: DeviceReason::Other,
            rested: 0,
            usage,
        }
    }

    /// Milliseconds of a clock that never goes back; 0 if it can't be read.
    fn now(&self) -> u64 {
        match self.clock.monotonic() {
            Ok(since) => since.as_millis().min(u128::from(u64::MAX)) as u64,
            Err(_) => 0,
        }
    }

    /// How reads rest after a read with this result. Two results show nothing about the store, and change
    /// nothing: false for an object that was never written, for which the store is not asked, and
    /// `DeviceFault::Memory`. A failure that is not `is_away` ends the rest, as a success does.
    fn after_read(&self, told: Result<bool, DeviceFault>) -> Rest {
        match told {
            Ok(true) => Rest::none(),
            Ok(false) | Err(DeviceFault::Memory) => self.reads,
            Err(DeviceFault::Failed) => {
                let failure = self.inner.last_failure();
                self.reads.after(is_away(failure), self.now())
            }
        }
    }

    /// How writes and removals rest after one with this result, which is true for a write that succeeded. An
    /// error reply makes both rest.
    fn after_write(&self, told: Result<bool, DeviceFault>) -> Rest {
        match told {
            Ok(true) => Rest::none(),
            Ok(false) | Err(DeviceFault::Memory) => self.writes,
            Err(DeviceFault::Failed) => {
                let failure = self.inner.last_failure();
                let is_refused = failure == Some(StoreFailure::Refused);
                self.writes
                    .after(is_refused || is_away(failure), self.now())
            }
        }
    }

    fn is_resting(&self) -> bool {
        self.reads.is_on() || self.writes.is_on()
    }

    /// Reports why a call failed, if it did, and returns that. Otherwise it returns `last`. Memory that was
    /// refused is no failure of the store.
    fn tell_fault(&self, fault: Option<DeviceFault>, last: DeviceReason) -> DeviceReason {
        if fault != Some(DeviceFault::Failed) {
            return last;
        }
        let reason = reason_of_store(self.inner.last_failure());
        self.usage.tell_failure(reason, &self.clock);
        reason
    }
}

impl<C: Clock + Drop> Device for RestingStore<'_, C> {
    ghost use Rattle.farserve.specs.Resting.{resting_state};

    ghost state = { λ device. resting_state device.inner.inner device.rested };

    ghost HONEST = { nothing_collided };

    fn construct(&mut self) -> Result<(), DeviceFault> {
        let result = self.inner.construct();
        self.write_reason = self.tell_fault(result.err(), self.write_reason);
        result
    }

    fn write(&mut self, id: u64, bytes: &[u8]) -> Result<(), DeviceFault> {
        if self.writes.forbids(self.now()) {
            self.rested = self.rested.saturating_add(1);
            self.usage.tell_failure(self.write_reason, &self.clock);
            return Err(DeviceFault::Failed);
        }
        let was = self.is_resting();
        let result = self.inner.write(id, bytes);
        self.writes = self.after_write(result.and(Ok(true)));
        self.write_reason = self.tell_fault(result.err(), self.write_reason);
        self.usage.tell_resting(was, self.is_resting());
        result
    }

    fn read(&mut self, id: u64, out: &mut Vec<u8>) -> Result<bool, DeviceFault> {
        if self.reads.forbids(self.now()) {
            self.rested = self.rested.saturating_add(1);
            self.usage.tell_failure(self.read_reason, &self.clock);
            return Err(DeviceFault::Failed);
        }
        let was = self.is_resting();
        let result = self.inner.read(id, out);
        self.reads = self.after_read(result);
        self.read_reason = self.tell_fault(result.err(), self.read_reason);
        self.usage.tell_resting(was, self.is_resting());
        result
    }

    fn remove(&mut self, id: u64) -> Result<bool, DeviceFault> {
        if self.writes.forbids(self.now()) {
            self.rested = self.rested.saturating_add(1);
            self.usage.tell_failure(self.write_reason, &self.clock);
            return Err(DeviceFault::Failed);
        }
        let was = self.is_resting();
        let result = self.inner.remove(id);
        self.writes = self.after_write(result);
        self.write_reason = self.tell_fault(result.err(), self.write_reason);
        self.usage.tell_resting(was, self.is_resting());
        result
    }

    fn failures(&self) -> u64 {
        self.inner.failures().saturating_add(self.rested)
    }
}
