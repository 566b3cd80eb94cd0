//! What a far device is, one device in the process, and four devices for tests.
//!
//! A far device stores objects as bytes under ids, outside the frames of the table. To store objects in
//! a place of your choice, implement `Device`. Its docstrings state what each call is given and what it
//! has to return. `FakeDevice` is the shortest complete example. The others wrap a device: they fail,
//! return wrong bytes or count calls, in a known way.
#![tactic(auto)]

mod canned_device;
mod device;
mod fake_device;
mod fault;
mod faulty_device;
mod lying_device;
mod watched_device;

pub use canned_device::CannedDevice;
pub use device::Device;
pub use fake_device::FakeDevice;
pub use fault::DeviceFault;
pub use faulty_device::FaultyDevice;
pub use lying_device::LyingDevice;
pub use watched_device::WatchedDevice;
