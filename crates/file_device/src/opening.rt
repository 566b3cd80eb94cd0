//! Opens a device in a folder.
ghost use Rattle.std.specs.Prelude.{◌≡◌, IfOk};
ghost use Rattle.std.specs.FinMap.{empty};
ghost use Rattle.file_device.specs.Devices.{state_in};

use crate::{DiskFault, FileDevice, FileDisk, ScratchFolder, Step};
use std::fs::File;
use std::hash::RandomState;
use std::random::RandomSource;
use std::rt::Files;

impl<R: Files<File = File> + AllocGlobal + RandomSource + Clone + Drop> FileDevice<
    FileDisk<ScratchFolder<R>>,
> {
    /// An empty device in scratch files in the folder, for the lane of this number.
    ///
    /// It draws the keys of the digests. If the system gives no random bytes for them, it returns `Io`
    /// with `Step::Random`. All other errors are those of `FileDisk::open`.
    pub fn open(rt: R, folder: &str, lane: u32) -> Result<Self, DiskFault>
        ensures { IfOk result (λ device.
            state_in device ≡ record { contents = empty; failures = 0 }) }
    {
        let alloc = rt.alloc();
        let keys = match RandomState::new(&rt) {
            Ok(keys) => keys,
            Err(error) => return Err(DiskFault::Io(Step::Random, error.kind())),
        };
        let disk = FileDisk::open(rt, folder, lane)?;
        Ok(FileDevice::new(alloc, disk, keys))
    }
}
