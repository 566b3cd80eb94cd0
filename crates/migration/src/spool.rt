//! Objects on a device, one under each id, in the first format.
ghost use Rattle.std.specs.Prelude.{◌≡◌, IsTrue, Some, IfOk, OnErr};
ghost use Rattle.std.specs.FinMap.{get};
ghost use Rattle.far_device.specs.DeviceState.{SameExceptAt};
ghost use Rattle.migration.specs.Parts.{pairs_at};

use crate::fault::Untaken;
use far_device::{Device, DeviceFault};
use far_object::{FarObject, Object};
use std::alloc::Global;

/// How often an object is read that the device fails to read.
const MOST_READS: u32 = 3;

// The bytes of this id. `Lost` comes where there are none, and where the device failed each time.
fn read_bytes<D: Device>(alloc: Global, device: &mut D, id: u64) -> Result<Vec<u8>, Untaken>
    ensures kept { (D.state device.new).contents ≡ (D.state device.old).contents }
    ensures honest { IsTrue D.HONEST → IfOk result (λ bytes. get (D.state device.old).contents id ≡ Some bytes.items) }
{
    let mut bytes = Vec::new(alloc);
    for _i in 0..MOST_READS {
        match device.read(id, &mut bytes) {
            Ok(true) => return Ok(bytes),
            Ok(false) => return Err(Untaken::Lost),
            Err(DeviceFault::Memory) => return Err(Untaken::Memory),
            Err(DeviceFault::Failed) => {}
        }
    }
    Err(Untaken::Lost)
}

/// The pairs of the object of this id, which then leaves the device, if that is able to.
///
/// `Memory` comes where a growth is refused, here or in the device; `Lost` where the device has no bytes or can't read them,
/// and where they are no object.
pub fn take_object<K: FarObject, V: FarObject, D: Device>(
    alloc: Global,
    device: &mut D,
    id: u64,
) -> Result<Vec<(K, V)>, Untaken>
    ensures others { SameExceptAt (D.state device.old).contents (D.state device.new).contents id }
    ensures stays { OnErr result ((D.state device.new).contents ≡ (D.state device.old).contents) }
    ensures honest { IsTrue D.HONEST → IfOk result (λ pairs. pairs.items ≡ pairs_at K.enc V.enc K.dec V.dec (get (D.state device.old).contents id)) }
{
    let bytes = read_bytes(alloc, device, id)?;
    let Ok(object) = Object::<K, V>::read(bytes) else {
        return Err(Untaken::Lost);
    };
    let Ok(pairs) = object.entries(alloc) else {
        return Err(Untaken::Memory);
    };
    // Bytes that stay are nobody's: the id is given to another object, which is written over them.
    let _ = device.remove(id);
    Ok(pairs)
}
