//! Opens devices in folders, one for each lane.
ghost use Rattle.std.specs.Prelude.{◌≡◌, ◌<◌, ◌≤◌, length, vec_len, IfOk, IfErr};
ghost use Rattle.file_device.specs.Folders.{IsOfFolders};

use crate::{DiskFault, FileDevice, FileDisk, ScratchFolder};
use std::fs::File;
use std::random::RandomSource;
use std::rt::Files;
use thiserror::Error;

/// Why devices could not be opened in folders.
#[derive(Clone, Copy, Debug, PartialEq, Eq, Error)]
pub enum FolderFault {
    /// An allocation failed.
    #[error("memory")]
    Memory,
    /// The folder of this number, counted from 1, can't be used.
    #[error("far {0}: cannot open")]
    CannotOpen(u32),
}

/// Opens a device for each of `lanes` lanes, in 1 to 64 folders.
///
/// The lanes take the folders in turn: lane i is in the folder i modulo their count. If there are more
/// folders than lanes, the last ones are not looked at. Several lanes, also of other processes, may be
/// in one folder.
///
/// `CannotOpen` names the first folder that can't be used. For example, it does not exist, may not be
/// written, or has an empty name. It is also returned if the system gives no random bytes. `Memory` if
/// an allocation fails. After an error the devices that were opened are dropped.
pub fn open_lanes<R>(
    rt: R,
    folders: &[&str],
    lanes: u32,
) -> Result<Vec<FileDevice<FileDisk<ScratchFolder<R>>>>, FolderFault>
where
    R: Files<File = File> + AllocGlobal + RandomSource + Copy + Drop,
    requires some { 0 < length folders.now }
    requires few { length folders.now ≤ 64 }
    ensures count { IfOk result (λ devices. vec_len devices ≡ lanes) }
    ensures fault { IfErr result (IsOfFolders (length folders.now)) }
{
    let count = folders.len() as u32;
    let mut devices = Vec::new(rt.alloc());
    for lane in 0..lanes {
        let at = lane % count;
        let folder = folders[at as usize];
        if folder.is_empty() {
            return Err(FolderFault::CannotOpen(at + 1));
        }
        let device = match FileDevice::open(rt, folder, lane) {
            Ok(device) => device,
            Err(DiskFault::Memory) => return Err(FolderFault::Memory),
            Err(DiskFault::Io(_, _)) => return Err(FolderFault::CannotOpen(at + 1)),
        };
        if devices.push(device).is_err() {
            return Err(FolderFault::Memory);
        }
    }
    Ok(devices)
}
