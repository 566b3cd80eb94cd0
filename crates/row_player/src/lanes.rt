//! Cases of lanes: of a row of words, and of devices that each has a lane.
mod broken_device;
mod calls;
mod devices;
mod disk;
mod gates;
mod opening;
mod other_reader;
mod store;
mod threads;
mod user;

pub use opening::play;
