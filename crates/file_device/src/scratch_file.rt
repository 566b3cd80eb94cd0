//! A scratch file without a name, which stores the slots of one class.
ghost use Rattle.std.specs.Prelude.{◌≡◌, false, None, IfSome};

use crate::slot_file::SlotFile;
use crate::space::{IdleFile, ScratchSpace};
use crate::{DiskFault, Step};
use std::alloc::AllocError;
use std::fs::File;
use std::io;
use std::io::ErrorKind;
use std::os::unix::fs::FileExt;
use std::sync::Arc;

/// How many bytes of idle files are cut first if the disk is full. Each further time it is twice as many.
const FIRST: u64 = 1 << 20;

/// How often a write is tried again on a full disk, if bytes were cut.
const TRIES: u32 = 16;

/// The space that a lane's files share, and the lane's number in it.
#[derive(Drop)]
pub(crate) struct Share {
    pub(crate) space: Arc<ScratchSpace>,
    pub(crate) lane: u32,
}

impl Share {
    /// The same share once more.
    pub(crate) fn again(&self) -> Result<Share, AllocError> {
        Ok(Share {
            space: Arc::try_clone(&self.space)?,
            lane: self.lane,
        })
    }
}

/// A scratch file of a class. It has no name in its folder.
///
/// In a shared space `clear` moves the file of the system to the idle ones, and it has none until its folder
/// makes it ready for a write. Otherwise `clear` cuts it.
#[derive(Drop)]
pub struct ScratchFile {
    pub(crate) class: u8,
    pub(crate) file: Option<File>,
    // Where the last slot ends that was written.
    pub(crate) end: u64,
    pub(crate) share: Option<Share>,
}

/// Whether it is for want of room on the disk.
fn is_full(kind: ErrorKind) -> bool {
    matches!(kind, ErrorKind::StorageFull | ErrorKind::QuotaExceeded)
}

impl ScratchFile {
    /// Where the slot ends that has the byte before this place.
    fn end_of_slot(&self, place: u64) -> u64 {
        let size = 64u64 << (self.class & 31);
        match place % size {
            0 => place,
            part => place.saturating_add(size.saturating_sub(part)),
        }
    }

    /// Notes that the file has bytes up to this place.
    fn reach(&mut self, place: u64) {
        let end = self.end_of_slot(place);
        if end > self.end {
            if let Some(share) = &self.share {
                share.space.grow(share.lane, end.saturating_sub(self.end));
            }
            self.end = end;
        }
    }

    /// Cuts the file to no bytes.
    fn cut(&mut self) -> Result<(), DiskFault>
        ensures { self.new.share ≡ self.old.share }
    {
        if let Some(file) = &self.file {
            if let Err(error) = file.set_len(0) {
                return Err(DiskFault::Io(Step::Cut, error.kind()));
            }
        }
        self.end = 0;
        Ok(())
    }
}

/// Makes room on a full disk, if idle files of the space have bytes. Returns whether it did.
fn make_room(share: Option<&Share>, kind: ErrorKind, bytes: u64) -> bool {
    match share {
        Some(share) => is_full(kind) && share.space.give_back_any(bytes) > 0,
        None => false,
    }
}

/// Writes the bytes from place `at` on. If the disk is full, idle files of the space are cut first.
fn write_in(share: Option<&Share>, file: &File, bytes: &[u8], at: u64) -> io::Result<()> {
    let mut room = FIRST;
    for _ in 0..TRIES {
        match file.write_all_at(bytes, at) {
            Ok(()) => return Ok(()),
            Err(error) if !make_room(share, error.kind(), room) => return Err(error),
            Err(_) => room = room.saturating_mul(2),
        }
    }
    file.write_all_at(bytes, at)
}

/// Up to which place a file has bytes after a write. After an error a part of the bytes may be there.
fn place_after(written: &io::Result<()>, file: &File, bytes: &[u8], at: u64) -> u64 {
    if written.is_ok() {
        return at.saturating_add(bytes.len() as u64);
    }
    match file.metadata() {
        Ok(metadata) => metadata.len(),
        Err(_) => 0,
    }
}

impl SlotFile for ScratchFile {
    ghost HONEST = { false };

    ghost byte = { λ file place. 0 };

    fn write(&mut self, bytes: &[u8], at: u64) -> Result<(), DiskFault> {
        let Some(file) = &self.file else {
            return Err(DiskFault::Io(Step::Write, ErrorKind::NotFound));
        };
        let written = write_in(self.share.as_ref(), file, bytes, at);
        let place = place_after(&written, file, bytes, at);
        self.reach(place);
        match written {
            Ok(()) => Ok(()),
            Err(error) => Err(DiskFault::Io(Step::Write, error.kind())),
        }
    }

    fn read(&self, buffer: &mut [u8], at: u64) -> Result<(), DiskFault> {
        let Some(file) = &self.file else {
            return Err(DiskFault::Io(Step::Read, ErrorKind::NotFound));
        };
        match file.read_exact_at(buffer, at) {
            Ok(()) => Ok(()),
            Err(error) => Err(DiskFault::Io(Step::Read, error.kind())),
        }
    }

    /// In a shared space the file is idle afterwards, and keeps its bytes.
    fn clear(&mut self) -> Result<(), DiskFault>
        // So whoever cuts the file has it alone.
        ensures moved { IfSome self.old.share (λ _. self.new.file ≡ None) }
    {
        let Some(share) = &self.share else {
            return self.cut();
        };
        if let Some(file) = self.file.take() {
            share
                .space
                .put(share.lane, IdleFile::new(self.class, file, self.end));
        }
        self.end = 0;
        Ok(())
    }

    /// Up to the end of the last slot that was written.
    fn len(&self) -> Result<u64, DiskFault> {
        Ok(self.end)
    }
}
