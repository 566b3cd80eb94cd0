//! A device in the process, over a hash map of the standard library.
ghost use Rattle.std.specs.Prelude.{◌≡◌, true, IsOk, IsOkUnless, OnErr};
ghost use Rattle.std.specs.FinMap.{empty};
ghost use Rattle.far_device.specs.Calls.{Constructs, Writes, Reads, Removes};
ghost use Rattle.far_device.specs.Fake.{fake_state};

use crate::{Device, DeviceFault};
use std::alloc::Global;
use std::collections::HashMap;
use std::marker::Model;

/// A device in the memory of the process: a hash map from ids to copies of their bytes.
///
/// It is honest, keeps no labels, and never returns `Failed`. `write` and `read` return `Memory` if an
/// allocation fails. The hash map keeps its own room when objects are removed. Contracts see the device
/// as its map from ids to bytes.
#[derive(Drop)]
pub struct FakeDevice {
    alloc: Global,
    kept: HashMap<u64, Vec<u8>>,
}

impl Model for FakeDevice {
    ghost use Rattle.std.specs.Coded.{coded_ℕ, coded_list};
    ghost use Rattle.std.specs.FinMap.{code};
    ghost use Rattle.far_device.specs.DeviceState.{Contents};
    ghost use Rattle.far_device.specs.Fake.{contents_of};

    ghost Value = { Contents };

    ghost coded = { code coded_ℕ (coded_list coded_ℕ) };

    ghost view = { λ device. contents_of device.kept.entries };
}

impl FakeDevice {
    /// An empty device. It takes no memory before the first write.
    pub fn new(alloc: Global) -> Self
        ensures { result ≡ empty }
    {
        FakeDevice {
            alloc,
            kept: HashMap::new(alloc),
        }
    }
}

impl Device for FakeDevice {
    ghost state = { fake_state };

    ghost HONEST = { true };

    /// Never fails.
    fn construct(&mut self) -> Result<(), DeviceFault>
        ensures constructs { Constructs (fake_state self.old) (fake_state self.new) result }
        ensures ok { IsOk result }
    {
        self.kept.clear();
        Ok(())
    }

    /// After an error, which is `Memory`, the whole device is as before.
    fn write(&mut self, id: u64, bytes: &[u8]) -> Result<(), DeviceFault>
        ensures writes { Writes (fake_state self.old) (fake_state self.new) id bytes.now result }
        ensures memory { IsOkUnless result DeviceFault.Memory }
        ensures refused { OnErr result (self.new ≡ self.old) }
    {
        let copy = Vec::from_slice(self.alloc, bytes)?;
        self.kept.insert(id, copy)?;
        Ok(())
    }

    fn read(&mut self, id: u64, out: &mut Vec<u8>) -> Result<bool, DeviceFault>
        ensures reads { Reads true (fake_state self.old) (fake_state self.new)
            id out.old.items out.new.items result }
        ensures memory { IsOkUnless result DeviceFault.Memory }
    {
        let Some(bytes) = self.kept.get(&id) else {
            return Ok(false);
        };
        out.extend_from_slice(bytes)?;
        Ok(true)
    }

    /// Never fails.
    fn remove(&mut self, id: u64) -> Result<bool, DeviceFault>
        ensures removes { Removes (fake_state self.old) (fake_state self.new) id result }
        ensures ok { IsOk result }
    {
        Ok(self.kept.remove(&id).is_some())
    }

    fn failures(&self) -> u64 {
        0
    }
}
