//! The devices that the program's table swaps objects to.
ghost use Rattle.std.specs.Prelude.{◌≡◌, vec_len, IfOk};

use far_device::FakeDevice;
use far_object::Memory;
use std::alloc::Global;

/// So many devices that lie in the process, one for each lane. `Memory` comes where a growth is refused.
pub fn open_lanes(alloc: Global, count: u32) -> Result<Vec<FakeDevice>, Memory>
    ensures { IfOk result (λ devices. vec_len devices ≡ count) }
{
    let mut devices = Vec::new(alloc);
    for _ in 0..count {
        devices.push(FakeDevice::new(alloc))?;
    }
    Ok(devices)
}
