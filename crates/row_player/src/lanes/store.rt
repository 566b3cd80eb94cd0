//! The lanes of a case: behind locks, or one alone.
ghost use Rattle.std.specs.Prelude.{◌≡◌};
ghost use Rattle.table_core.specs.BucketWords.{place_of, far_place};

use crate::holdings::Drawn;
use anyhow::{Result, bail};
use far_device::Device;
use far_object::{Format, Text};
use lane_store::{Lane, LaneFault, LaneStore, Receipt};
use std::alloc::Global;
use std::sync::Wait;
use version_words::{Naming, Spare};

/// What a reading gives.
pub type Read<J> = std::result::Result<Option<Receipt<Text, Text, J>>, LaneFault>;

/// Lanes.
#[derive(Drop)]
pub enum Lanes<J: Naming, D: Device> {
    Locked(LaneStore<Text, Text, J, D>),
    /// A lane without a lock.
    Alone(Lane<Text, Text, J, D>),
}

impl<J: Naming, D: Device> Lanes<J, D> {
    /// A lane for each device, or one without a lock.
    pub fn open(
        alloc: Global,
        devices: Vec<D>,
        is_locked: bool,
    ) -> Result<std::result::Result<Lanes<J, D>, LaneFault>> {
        let mut devices = devices;
        if devices.is_empty() || devices.len() > 64 {
            bail!("there are 1 to 64 devices");
        }
        if is_locked {
            return Ok(match LaneStore::open(alloc, devices) {
                Ok(lanes) => Ok(Lanes::Locked(lanes)),
                Err(fault) => Err(fault),
            });
        }
        let Some(device) = devices.pop() else {
            bail!("there is no device");
        };
        Ok(match Lane::open(alloc, device) {
            Ok(lane) => Ok(Lanes::Alone(lane)),
            Err(fault) => Err(fault),
        })
    }

    /// The lanes that threads may share.
    pub fn locked(&self) -> Result<&LaneStore<Text, Text, J, D>> {
        match self {
            Lanes::Locked(lanes) => Ok(lanes),
            Lanes::Alone(_) => bail!("a lane without a lock is one thread's"),
        }
    }

    pub fn count(&self) -> usize {
        match self {
            Lanes::Locked(lanes) => lanes.count(),
            Lanes::Alone(_) => 1,
        }
    }

    /// Keeps the object under its name.
    pub fn write<R: Wait>(
        &mut self,
        rt: &R,
        drawn: &Drawn<J>,
        format: Format,
    ) -> std::result::Result<(), LaneFault> {
        match self {
            Lanes::Locked(lanes) => lanes.write(rt, &drawn.name, &drawn.object, format),
            Lanes::Alone(lane) => lane.write(&drawn.name, &drawn.object, format),
        }
    }

    pub fn read<R: Wait>(&mut self, rt: &R, name: u64, out: &mut Vec<u8>) -> Read<J> {
        match self {
            Lanes::Locked(lanes) => lanes.read(rt, name, out),
            Lanes::Alone(lane) => lane.read(name, out),
        }
    }

    pub fn remove<R: Wait>(
        &mut self,
        rt: &R,
        spare: &Spare<Text, Text, J>,
    ) -> std::result::Result<bool, LaneFault>
        requires far { place_of spare.now.word ≡ far_place }
    {
        match self {
            Lanes::Locked(lanes) => lanes.remove(rt, spare),
            Lanes::Alone(lane) => lane.remove(spare),
        }
    }

    /// Removes the object of a name that no word has any more.
    pub fn forget(&mut self, name: u64) -> Result<()> {
        match self {
            Lanes::Locked(lanes) => lanes.forget(name),
            Lanes::Alone(_) => bail!("lanes behind locks alone forget"),
        }
        Ok(())
    }
}
