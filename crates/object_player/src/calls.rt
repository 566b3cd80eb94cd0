//! The calls that each device has.

use crate::world::{bytes, fault, flag, nothing, number, shown, small, text, told, unknown};
use anyhow::{Result, bail};
use case_files::Line;
use far_device::{Device, DeviceFault};
use std::alloc::Global;

/// A device that fails each call, and keeps nothing.
#[derive(Drop)]
pub(crate) struct BrokenDevice {
    failures: u64,
}

impl BrokenDevice {
    ghost use Rattle.std.specs.Prelude.{◌≡◌, ◌+◌, ◌-◌, ◌^◌, min};

    pub(crate) fn new(failures: u64) -> BrokenDevice {
        BrokenDevice { failures }
    }

    fn fail(&mut self) -> DeviceFault
        ensures fault { result ≡ DeviceFault.Failed }
        ensures counted { self.new.failures ≡ min (self.old.failures + 1) (2 ^ 64 - 1) }
    {
        self.failures = self.failures.saturating_add(1);
        DeviceFault::Failed
    }
}

impl Device for BrokenDevice {
    ghost use Rattle.std.specs.Prelude.{true};
    ghost use Rattle.std.specs.FinMap.{empty};

    ghost state = { λ device. record { contents = empty; failures = device.failures } };

    ghost HONEST = { true };

    fn construct(&mut self) -> std::result::Result<(), DeviceFault> {
        Err(self.fail())
    }

    fn write(&mut self, _id: u64, _bytes: &[u8]) -> std::result::Result<(), DeviceFault> {
        Err(self.fail())
    }

    fn read(&mut self, _id: u64, _out: &mut Vec<u8>) -> std::result::Result<bool, DeviceFault> {
        Err(self.fail())
    }

    fn remove(&mut self, _id: u64) -> std::result::Result<bool, DeviceFault> {
        Err(self.fail())
    }

    fn failures(&self) -> u64 {
        self.failures
    }
}

/// What the device has under the id. What stood in the list before has to stay, and after a fault nothing stands behind it.
fn read<D: Device>(alloc: Global, device: &mut D, line: &Line) -> Result<String> {
    let id = number(line, 1)?;
    let mut out = Vec::from_slice(alloc, &[9])?;
    let answer = if line.call() == "read" {
        device.read(id, &mut out).map(|there| there.then_some(None))
    } else {
        device
            .read_labelled(id, &mut out)
            .map(|label| label.map(Some))
    };
    let Some((9, found)) = out.as_slice().split_first() else {
        bail!("what stood before is gone");
    };
    match answer {
        Ok(Some(None)) => told(alloc, found),
        Ok(Some(Some(label))) => {
            let bytes = told(alloc, found)?;
            Ok(format!(in alloc; "{label} {}", bytes.as_str())?)
        }
        _ if !found.is_empty() => bail!("bytes were handed out"),
        Ok(None) => text(alloc, "none"),
        Err(why) => fault(alloc, &why),
    }
}

/// The two replies of a call that answers yes or no. They are made before it, so that no growth is refused behind it.
fn flags(alloc: Global) -> Result<(String, String)> {
    Ok((flag(alloc, true)?, flag(alloc, false)?))
}

fn flag_of(replies: (String, String), is_so: bool) -> String {
    if is_so { replies.0 } else { replies.1 }
}

/// Writes bytes. Where a growth was refused, what the line says is `new` has to be not there.
fn write<D: Device>(alloc: Global, device: &mut D, line: &Line) -> Result<String> {
    let id = number(line, 1)?;
    let bytes = bytes(alloc, line, 2)?;
    let is_new = line.is(3, "new");
    match device.write(id, bytes.as_slice()) {
        Ok(()) => nothing(alloc),
        Err(why) => {
            if is_new && device.read(id, &mut Vec::new(alloc)) == Ok(true) {
                bail!("a refused write was made");
            }
            fault(alloc, &why)
        }
    }
}

/// The same with a label. Where a growth was refused, what is `new` has to have none.
fn write_labelled<D: Device>(alloc: Global, device: &mut D, line: &Line) -> Result<String> {
    let (id, label) = (number(line, 1)?, small(line, 2)?);
    let (bytes, reply) = (bytes(alloc, line, 3)?, flags(alloc)?);
    let is_new = line.is(4, "new");
    match device.write_labelled(id, label, bytes.as_slice()) {
        Ok(is_kept) => Ok(flag_of(reply, is_kept)),
        Err(why) => {
            if is_new && device.read_labelled(id, &mut Vec::new(alloc)) != Ok(None) {
                bail!("a refused write has a label");
            }
            fault(alloc, &why)
        }
    }
}

/// What the call replies.
pub(crate) fn call<D: Device>(alloc: Global, device: &mut D, line: &Line) -> Result<String> {
    match line.call() {
        "construct" => match device.construct() {
            Ok(()) => nothing(alloc),
            Err(why) => fault(alloc, &why),
        },
        "write" => write(alloc, device, line),
        "write_labelled" => write_labelled(alloc, device, line),
        "read" | "read_labelled" => read(alloc, device, line),
        "remove" => {
            let (id, reply) = (number(line, 1)?, flags(alloc)?);
            match device.remove(id) {
                Ok(was_there) => Ok(flag_of(reply, was_there)),
                Err(why) => fault(alloc, &why),
            }
        }
        "failures" => shown(alloc, &device.failures()),
        _ => unknown(line),
    }
}
