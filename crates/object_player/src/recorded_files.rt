//! A folder whose files are in the process. They note where they are read and written, and some of their calls fail.
ghost use Rattle.std.specs.Prelude.{false};

use crate::calls::call;
use crate::world::{World, fault, shown, text};
use anyhow::Result;
use case_files::Line;
use file_device::{DiskFault, FileDevice, FileDisk, SlotFile, SlotFolder, Step};
use std::alloc::Global;
use std::io::ErrorKind;
use std::sync::Arc;
use std::sync::atomic::{AtomicU64, Ordering};

/// What the files of a folder note: how often each of their calls was made, and where the last ones were.
#[derive(Drop)]
pub(crate) struct Notes {
    /// Each call of this number, and of its multiples, fails; none if it is 0.
    fails: u64,
    calls: AtomicU64,
    made: AtomicU64,
    written_at: AtomicU64,
    written_bytes: AtomicU64,
    read_at: AtomicU64,
    read_bytes: AtomicU64,
}

impl Notes {
    pub(crate) fn new(fails: u64) -> Notes {
        Notes {
            fails,
            calls: AtomicU64::new(0),
            made: AtomicU64::new(0),
            written_at: AtomicU64::new(0),
            written_bytes: AtomicU64::new(0),
            read_at: AtomicU64::new(0),
            read_bytes: AtomicU64::new(0),
        }
    }

    /// Counts a call, and fails it if it is due.
    fn count(&self, step: Step) -> std::result::Result<(), DiskFault> {
        let calls = self.calls.fetch_add(1, Ordering::SeqCst).wrapping_add(1);
        if self.fails != 0 && calls % self.fails == 0 {
            return Err(DiskFault::Io(step, ErrorKind::Other));
        }
        Ok(())
    }
}

/// A file of a recorded folder.
#[derive(Drop)]
pub(crate) struct RecordedFile {
    bytes: Vec<u8>,
    notes: Arc<Notes>,
}

impl SlotFile for RecordedFile {
    ghost HONEST = { false };

    ghost byte = { λ file place. 0 };

    fn write(&mut self, bytes: &[u8], at: u64) -> std::result::Result<(), DiskFault> {
        self.notes.count(Step::Write)?;
        self.notes.written_at.store(at, Ordering::SeqCst);
        let count = bytes.len() as u64;
        self.notes.written_bytes.store(count, Ordering::SeqCst);
        let from = at as usize;
        let Some(to) = from.checked_add(bytes.len()) else {
            return Err(DiskFault::Io(Step::Write, ErrorKind::InvalidInput));
        };
        if self.bytes.len() < to {
            self.bytes.resize(to, 0)?;
        }
        self.bytes[from..to].copy_from_slice(bytes);
        Ok(())
    }

    fn read(&self, buffer: &mut [u8], at: u64) -> std::result::Result<(), DiskFault> {
        self.notes.count(Step::Read)?;
        self.notes.read_at.store(at, Ordering::SeqCst);
        let count = buffer.len() as u64;
        self.notes.read_bytes.store(count, Ordering::SeqCst);
        let from = at as usize;
        match from.checked_add(buffer.len()) {
            Some(to) if to <= self.bytes.len() => {
                buffer.copy_from_slice(&self.bytes[from..to]);
                Ok(())
            }
            _ => Err(DiskFault::Io(Step::Read, ErrorKind::UnexpectedEof)),
        }
    }

    fn clear(&mut self) -> std::result::Result<(), DiskFault> {
        self.notes.count(Step::Cut)?;
        self.bytes.clear();
        Ok(())
    }

    fn len(&self) -> std::result::Result<u64, DiskFault> {
        self.notes.count(Step::Read)?;
        Ok(self.bytes.len() as u64)
    }
}

/// A folder that makes recorded files.
#[derive(Drop)]
pub(crate) struct RecordedFolder {
    pub(crate) alloc: Global,
    pub(crate) notes: Arc<Notes>,
}

impl SlotFolder for RecordedFolder {
    type File = RecordedFile;

    fn make(&mut self, _class: u8) -> std::result::Result<RecordedFile, DiskFault> {
        self.notes.count(Step::Open)?;
        self.notes.made.fetch_add(1, Ordering::SeqCst);
        let Ok(notes) = self.notes.clone() else {
            return Err(DiskFault::Memory);
        };
        Ok(RecordedFile {
            bytes: Vec::new(self.alloc),
            notes,
        })
    }

    fn ready(&mut self, _file: &mut RecordedFile) -> std::result::Result<(), DiskFault> {
        Ok(())
    }
}

/// A device on a disk in recorded files.
#[derive(Drop)]
pub(crate) struct Recorded {
    pub(crate) alloc: Global,
    pub(crate) device: FileDevice<FileDisk<RecordedFolder>>,
    pub(crate) notes: Arc<Notes>,
}

impl World for Recorded {
    fn call(&mut self, line: &Line) -> Result<String> {
        let notes = &self.notes;
        match line.call() {
            "made" => shown(self.alloc, &notes.made.load(Ordering::SeqCst)),
            "last_write" => {
                let at = notes.written_at.load(Ordering::SeqCst);
                let bytes = notes.written_bytes.load(Ordering::SeqCst);
                Ok(format!(in self.alloc; "{bytes} bytes at {at}")?)
            }
            "last_read" => {
                let at = notes.read_at.load(Ordering::SeqCst);
                let bytes = notes.read_bytes.load(Ordering::SeqCst);
                Ok(format!(in self.alloc; "{bytes} bytes at {at}")?)
            }
            "file_bytes" => match self.device.disk().len() {
                Ok(bytes) => shown(self.alloc, &bytes),
                Err(why) => fault(self.alloc, &why),
            },
            "last_failure" => match self.device.last_failure() {
                None => text(self.alloc, "none"),
                Some(why) => fault(self.alloc, &why),
            },
            _ => call(self.alloc, &mut self.device, line),
        }
    }
}
