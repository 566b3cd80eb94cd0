//! A far device over the slots of a disk: scratch files in a folder, or memory of the process.
//!
//! `FileDevice` implements `far_device::Device` over any `Disk`. It has an index in memory: of each
//! object the slot, the length, a digest and a label. `FileDisk` is a disk in files, for example in
//! those of a `ScratchFolder`, and `MemoryDisk` is one in the process. The heads of `scratch.rt` and `device.rt` say what is in the
//! folder, and what happens when a disk is full, a process is killed or a file is damaged.
#![tactic(auto)]

mod catalog;
mod class;
mod device;
mod disk;
mod failures;
mod fault;
mod file_disk;
mod folders;
mod ledger;
mod memory;
mod names;
mod opening;
mod owners;
mod place;
mod scratch;
mod scratch_file;
mod slot;
mod slot_file;
mod space;

pub use class::CLASSES;
pub use device::FileDevice;
pub use disk::Disk;
pub use fault::{DiskFault, FileFailure, Step};
pub use file_disk::FileDisk;
pub use folders::{FolderFault, open_lanes};
pub use memory::MemoryDisk;
pub use scratch::ScratchFolder;
pub use scratch_file::ScratchFile;
pub use slot::Slot;
pub use slot_file::{SlotFile, SlotFolder};
pub use space::ScratchSpace;
