//! What the devices keep, and why they failed, as they report it: for INFO and for the errors of clients. No
//! contract claims anything about it.

use crate::context::milliseconds;
use file_device::ScratchSpace;
use server_commands::{DEVICE_REASONS, DeviceReason};
use std::array;
use std::rt::Clock;
use std::sync::Arc;
use std::sync::atomic::{AtomicU64, Ordering};

/// How many milliseconds old a failure may be that is taken for the reason why no device takes an object.
const LATELY: u64 = 1_000;

/// What all devices of a server keep, as sums that the devices report and INFO reads:
/// - how many objects there are;
/// - how many of them are known to be lost;
/// - how many bytes their slots take;
/// - how many devices are at rest, that is left alone for a while because their stores fail.
///
/// Each device reports by how much its own numbers changed. For example, `tell_objects(2, 3)` adds one object
/// to the sum.
///
/// A device also reports each call that has failed, whoever made it: a worker, the sweep or the evictor.
///
/// Devices in scratch files don't report bytes: their space counts them.
#[derive(Drop)]
pub struct FarUsage {
    /// The space of the devices' scratch files. None if there are no such devices.
    files: Option<Arc<ScratchSpace>>,
    objects: AtomicU64,
    lost: AtomicU64,
    bytes: AtomicU64,
    resting: AtomicU64,
    /// How many calls have failed for each reason, in the order of `DEVICE_REASONS`.
    failures: [AtomicU64; 10],
    /// The place in `DEVICE_REASONS` of the last failure's reason, from 1 on; 0 if no call has failed. If two
    /// devices fail at once, this may be of one of them, and the time of the other one.
    last_reason: AtomicU64,
    /// The time of the last failure, in milliseconds since 1970.
    last_time: AtomicU64,
}

/// Adds by how much a number of a device changed. The sum may wrap on the way, and is right once all have
/// reported.
fn tell(sum: &AtomicU64, before: u64, after: u64) {
    if before != after {
        sum.fetch_add(after.wrapping_sub(before), Ordering::SeqCst);
    }
}

impl FarUsage {
    /// For devices that are empty and not at rest: all sums are 0.
    pub fn new() -> Self {
        FarUsage::of(None)
    }

    /// The same for devices in scratch files, which share this space. The sweep cuts the files that no object
    /// needs.
    pub fn over(files: Arc<ScratchSpace>) -> Self {
        FarUsage::of(Some(files))
    }

    fn of(files: Option<Arc<ScratchSpace>>) -> Self {
        FarUsage {
            files,
            objects: AtomicU64::new(0),
            lost: AtomicU64::new(0),
            bytes: AtomicU64::new(0),
            resting: AtomicU64::new(0),
            failures: array::from_fn(|_| AtomicU64::new(0)),
            last_reason: AtomicU64::new(0),
            last_time: AtomicU64::new(0),
        }
    }

    /// A device reports that it keeps `after` objects now. `before` is what it last reported, or 0.
    pub fn tell_objects(&self, before: u64, after: u64) {
        tell(&self.objects, before, after);
    }

    /// A device reports that its store is known to have lost `after` of its objects. `before` is what it last
    /// reported, or 0.
    pub fn tell_lost(&self, before: u64, after: u64) {
        tell(&self.lost, before, after);
    }

    /// A device reports that its slots take `after` bytes now. `before` is what it last reported, or 0.
    pub fn tell_bytes(&self, before: u64, after: u64) {
        tell(&self.bytes, before, after);
    }

    /// A device reports whether it is at rest now, because its store fails. `before` is what it last
    /// reported, or false.
    pub fn tell_resting(&self, before: bool, after: bool) {
        tell(&self.resting, u64::from(before), u64::from(after));
    }

    /// A device reports that a call of it has failed now, for this reason.
    pub fn tell_failure<C: Clock>(&self, reason: DeviceReason, clock: &C) {
        let place = reason as usize;
        if let Some(count) = self.failures.get(place) {
            count.fetch_add(1, Ordering::SeqCst);
        }
        self.last_time.store(milliseconds(clock), Ordering::SeqCst);
        self.last_reason
            .store((place as u64).saturating_add(1), Ordering::SeqCst);
    }

    /// Why a call of a device failed last. None if none has failed.
    pub fn last_reason(&self) -> Option<DeviceReason> {
        let place = self.last_reason.load(Ordering::SeqCst).checked_sub(1)?;
        DEVICE_REASONS.get(place as usize).copied()
    }

    /// When a call of a device failed last, in milliseconds since 1970; 0 if none has failed.
    pub fn last_time(&self) -> u64 {
        self.last_time.load(Ordering::SeqCst)
    }

    /// The last reason, if it is at most a second older than this time, in milliseconds since 1970.
    pub(crate) fn reason_at(&self, now: u64) -> Option<DeviceReason> {
        if self.last_time() < now.saturating_sub(LATELY) {
            return None;
        }
        self.last_reason()
    }

    /// How many calls of devices have failed for each reason, in the order of `DEVICE_REASONS`.
    pub fn failures(&self) -> [u64; 10] {
        array::from_fn(|place| match self.failures.get(place) {
            Some(count) => count.load(Ordering::SeqCst),
            None => 0,
        })
    }

    /// How many devices are at rest, because their stores fail.
    pub fn resting(&self) -> u64 {
        self.resting.load(Ordering::SeqCst)
    }

    /// How many objects are stored on devices.
    pub fn objects(&self) -> u64 {
        self.objects.load(Ordering::SeqCst)
    }

    /// How many objects devices were asked for that their stores have no more.
    pub fn lost(&self) -> u64 {
        self.lost.load(Ordering::SeqCst)
    }

    /// How many bytes the slots on devices take. Slots that have no object any more are counted too, until
    /// their file is cut.
    pub fn bytes(&self) -> u64 {
        let told = self.bytes.load(Ordering::SeqCst);
        match self.files() {
            Some(files) => told.saturating_add(files.bytes()),
            None => told,
        }
    }

    /// The space of the devices' scratch files.
    pub(crate) fn files(&self) -> Option<&ScratchSpace> {
        match &self.files {
            Some(files) => Some(files),
            None => None,
        }
    }
}
