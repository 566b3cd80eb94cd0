//! A folder of scratch files.
//!
//! # Which files are made
//!
//! There is one file for each class of slots that was used, so at most 21 for each lane.
//! `FileDisk::open` makes the file of class 0, and the first write to another class makes its file. So
//! the folder is needed as long as the disk is used.
//!
//! A file is made as `fazhitta-TOKEN-LANE-CLASS.scratch`. TOKEN is 16 random hexadecimal digits. LANE
//! and CLASS are the numbers of lane and class. Only the process's user may read and write it (mode
//! 600). Its name is removed at once, and the open file goes on without a name. So a folder shows no
//! file of a disk in use.
//!
//! # What is locked
//!
//! Nothing. A file is always made new, and none is opened by a name that exists. So several disks and
//! several processes can use one folder. Each `FileDisk::open` removes all names of scratch files in
//! its folder. That harms nobody: the file of another process stays open. A process that just made a
//! file finds its name gone, and goes on.
//!
//! # After a kill
//!
//! When a process ends, also by a kill, the system frees its files without names. Their objects are
//! lost, and their space on the disk is free. Only a kill between making a file and removing its name
//! leaves a name. The next `FileDisk::open` in the folder removes it. If it may not, for example
//! because the file is another user's, the name stays, and nothing depends on it.
//!
//! # A full disk
//!
//! A write that the system refuses returns `Io` with `Step::Write`. For example, the disk is full or
//! the file is as long as the process may make it. A part of the bytes may be in the slot then.
//!
//! # When a file gets shorter
//!
//! A file is cut only after its class was cleared. A disk of `FileDisk::open` cuts it to no bytes at once. A
//! disk of `FileDisk::open_in` shares a `ScratchSpace` with others: there the file is idle, and keeps its
//! bytes until the next write of the class, or until it is cut. If the disk is full, idle files of the space
//! are cut before a write fails.
//!
//! # A damaged file
//!
//! No clause can say that a file returns what was written, so `HONEST` of a file is false. A file that is
//! too short is `Io` with `Step::Read`. A `FileDevice` finds changed bytes by their digest, and returns
//! `Failed`.
use crate::names::{BEFORE, BEHIND, is_scratch};
use crate::scratch_file::{ScratchFile, Share};
use crate::slot_file::SlotFolder;
use crate::space::ScratchSpace;
use crate::{DiskFault, FileDisk, Step};
use std::alloc::Global;
use std::fs;
use std::fs::{File, OpenOptions};
use std::io::ErrorKind;
use std::os::unix::fs::OpenOptionsExt;
use std::random::RandomSource;
use std::rt::Files;
use std::sync::Arc;

/// A folder in which a disk has scratch files without names. The head of this module says what happens
/// to them.
#[derive(Drop)]
pub struct ScratchFolder<R> {
    rt: R,
    alloc: Global,
    // The folder, and how the names of the files begin.
    stem: String,
    // None if a file is cut at once when its class has no object.
    share: Option<Share>,
}

impl<R: Files<File = File> + AllocGlobal + RandomSource + Clone + Drop> FileDisk<ScratchFolder<R>> {
    /// An empty disk in the folder, for the lane of this number. The file of a class without objects is cut
    /// at once.
    ///
    /// It removes the names of scratch files that killed processes left in the folder, as far as it
    /// may. It makes the file of class 0 too, so that a folder that can't be used is found here.
    ///
    /// `Memory` if an allocation fails. `Io` if the system gives no random bytes (`Step::Random`), if a
    /// file can't be made (`Step::Open`), or if its name can't be removed (`Step::Unlink`).
    pub fn open(rt: R, folder: &str, lane: u32) -> Result<Self, DiskFault> {
        open_sharing(rt, folder, lane, None)
    }

    /// The same disk, but the file of a class without objects is idle, and keeps its bytes. The space counts
    /// the files of this lane. Each other disk of the space has another lane, below the space's number of
    /// lanes.
    pub fn open_in(
        rt: R,
        folder: &str,
        lane: u32,
        space: Arc<ScratchSpace>,
    ) -> Result<Self, DiskFault> {
        open_sharing(rt, folder, lane, Some(Share { space, lane }))
    }
}

fn open_sharing<R>(
    rt: R,
    folder: &str,
    lane: u32,
    share: Option<Share>,
) -> Result<FileDisk<ScratchFolder<R>>, DiskFault>
where
    R: Files<File = File> + AllocGlobal + RandomSource + Clone + Drop,
{
    let alloc = rt.alloc();
    remove_left(&rt, folder)?;
    let mut token = [0; 8];
    if let Err(error) = rt.fill_bytes(&mut token) {
        return Err(DiskFault::Io(Step::Random, error.kind()));
    }
    let token = u64::from_le_bytes(token);
    let folder = ScratchFolder {
        rt,
        alloc,
        stem: format!(in alloc; "{folder}/{BEFORE}{token:016x}-{lane}-")?,
        share,
    };
    FileDisk::new(alloc, folder)
}

impl<R: Files<File = File> + Drop> FileDisk<ScratchFolder<R>> {
    /// How many bytes the files of the disk's lane have in its space, also those without objects. 0 if it
    /// has no space.
    pub fn bytes(&self) -> u64 {
        match &self.folder().share {
            Some(share) => share.space.bytes_of(share.lane),
            None => 0,
        }
    }

    /// Cuts this many bytes off files of the disk that have no object, or as many as they have.
    pub fn give_back(&self, bytes: u64) {
        if let Some(share) = &self.folder().share {
            share.space.give_back(share.lane, bytes);
        }
    }
}

/// Removes the names of scratch files in the folder.
///
/// A name that can't be listed or removed stays, for example another user's. Nothing depends on it.
fn remove_left<R>(rt: &R, folder: &str) -> Result<(), DiskFault>
where
    R: Files + AllocGlobal + Clone + Drop,
{
    let entries = match fs::read_dir(rt, folder) {
        Ok(entries) => entries,
        Err(error) => return pass_over(error.kind()),
    };
    for entry in entries {
        match entry {
            Ok(entry) => {
                if is_scratch(entry.file_name()) {
                    let _ = fs::remove_file(rt, entry.path());
                }
            }
            Err(error) => pass_over(error.kind())?,
        }
    }
    Ok(())
}

/// Passes over an error that nothing depends on. Only a failed allocation is a fault.
fn pass_over(kind: ErrorKind) -> Result<(), DiskFault> {
    if kind == ErrorKind::OutOfMemory {
        return Err(DiskFault::Memory);
    }
    Ok(())
}

/// Makes a file of this name, and removes the name. Only the process's user may read and write the
/// file.
fn open_unnamed<R: Files<File = File>>(rt: &R, name: &str) -> Result<File, DiskFault> {
    let opened = OpenOptions::new()
        .read(true)
        .write(true)
        .create_new(true)
        .mode(0o600)
        .open(rt, name);
    let file = match opened {
        Ok(file) => file,
        Err(error) => return Err(DiskFault::Io(Step::Open, error.kind())),
    };
    match fs::remove_file(rt, name) {
        Ok(()) => Ok(file),
        Err(error) if error.kind() == ErrorKind::NotFound => Ok(file),
        Err(error) => Err(DiskFault::Io(Step::Unlink, error.kind())),
    }
}

impl<R: Files<File = File> + Drop> ScratchFolder<R> {
    /// Gives the file an idle one of its class, or a new one.
    fn fill(&self, file: &mut ScratchFile) -> Result<(), DiskFault> {
        if let Some(share) = &self.share {
            if let Some(idle) = share.space.take(share.lane, file.class) {
                file.end = idle.bytes;
                file.file = Some(idle.file);
                return Ok(());
            }
        }
        let class = file.class;
        let name = format!(in self.alloc; "{}{class}{BEHIND}", self.stem)?;
        file.end = 0;
        file.file = Some(open_unnamed(&self.rt, name.as_str())?);
        Ok(())
    }
}

impl<R: Files<File = File> + Drop> SlotFolder for ScratchFolder<R> {
    type File = ScratchFile;

    fn make(&mut self, class: u8) -> Result<ScratchFile, DiskFault> {
        let share = match &self.share {
            Some(share) => Some(share.again()?),
            None => None,
        };
        let mut file = ScratchFile {
            class,
            file: None,
            end: 0,
            share,
        };
        self.fill(&mut file)?;
        Ok(file)
    }

    fn ready(&mut self, file: &mut ScratchFile) -> Result<(), DiskFault> {
        if file.file.is_some() {
            return Ok(());
        }
        self.fill(file)
    }
}
