//! The space of scratch files: how many bytes they have, and which of them no object needs.
//!
//! # Why a file without objects is kept
//!
//! A file could be cut to no bytes as soon as its class has no object. But the system may need seconds to
//! free the blocks of a long file, for example because it reports each of them to the disk as unused. The
//! call that emptied the class would wait, and so would all others that wait for its device. Often this is
//! in vain: a renewal empties all classes, and then fills them again.
//!
//! So the file becomes *idle*, and keeps its bytes. The next write of the class takes it back.
//!
//! # Who cuts it
//!
//! `ScratchSpace::cut` cuts files that were idle for a while, a piece at a time. A thread that has no
//! device's lock calls it again and again. A device cuts idle files itself only if it would fail otherwise,
//! because the disk is full or because it is at a limit (`give_back`).
//!
//! # No object is cut
//!
//! A file is moved: its class has it, or the list of idle files has it, or the thread that cuts it. So a
//! file that is being cut is no class's file. A class that finds no idle file of its own makes a new one.
//!
//! # Nobody waits
//!
//! The lock of a list is held for a few instructions, and never for a call of the system. A thread that
//! does not get it goes on without: it makes a new file, or closes the one that it has. The system frees
//! the bytes of a closed file without a name.

use std::alloc::{AllocError, Global};
use std::fs::File;
use std::hint;
use std::sync::atomic::{AtomicU64, Ordering};
use std::sync::{Mutex, MutexGuard};

/// How many bytes are cut at once: 1 MiB.
const PIECE: u64 = 1 << 20;

/// `cut` takes files that were idle for this many calls of `age`.
const GRACE: u32 = 5;

/// How often a thread tries to get the lock of a list.
const TRIES: u32 = 1_000;

/// For how many idle files a list has room from the beginning.
const ROOM: usize = 64;

/// How many times `give_back` cuts at most.
const CUTS: u32 = 64;

/// A scratch file that no object needs.
#[derive(Drop)]
pub(crate) struct IdleFile {
    pub(crate) class: u8,
    pub(crate) file: File,
    // How many bytes it has.
    pub(crate) bytes: u64,
    // How many calls of `age` it was idle for.
    age: u32,
}

impl IdleFile {
    /// A file that has become idle.
    pub(crate) fn new(class: u8, file: File, bytes: u64) -> Self {
        IdleFile {
            class,
            file,
            bytes,
            age: 0,
        }
    }

    /// Cuts off at most this many bytes, and returns how many. 0 if the system refuses.
    fn cut(&mut self, most: u64) -> u64 {
        let left = self.bytes.saturating_sub(most);
        if self.file.set_len(left).is_err() {
            return 0;
        }
        let cut = self.bytes.saturating_sub(left);
        self.bytes = left;
        cut
    }
}

/// Takes an idle file of the class out of the list, if there is one.
fn take_of_class(idle: &mut Vec<IdleFile>, class: u8) -> Option<IdleFile> {
    let at = idle.iter().position(|it| it.class == class)?;
    Some(idle.swap_remove(at))
}

/// Takes a file that has bytes out of the list, if one was idle for this many calls of `age`.
fn take_of_age(idle: &mut Vec<IdleFile>, least: u32) -> Option<IdleFile> {
    let at = idle.iter().position(|it| it.bytes > 0 && it.age >= least)?;
    Some(idle.swap_remove(at))
}

/// The files of one lane.
#[derive(Drop)]
struct LaneFiles {
    // The idle ones.
    idle: Mutex<Vec<IdleFile>>,
    // How many bytes all its files have, also those that are being cut.
    bytes: AtomicU64,
}

impl LaneFiles {
    /// A lane without files.
    fn new(alloc: Global) -> Result<Self, AllocError> {
        Ok(LaneFiles {
            idle: Mutex::new(Vec::with_capacity(alloc, ROOM)?),
            bytes: AtomicU64::new(0),
        })
    }

    /// The list of idle files. None if another thread has it all the time.
    fn idle(&self) -> Option<MutexGuard<'_, Vec<IdleFile>>> {
        for _ in 0..TRIES {
            if let Some(idle) = self.idle.try_lock() {
                return Some(idle);
            }
            hint::spin_loop();
        }
        None
    }

    /// Adds the file to the idle ones. If it can't, the file is closed.
    fn put(&self, file: IdleFile) {
        let bytes = file.bytes;
        let is_kept = match self.idle() {
            Some(mut idle) => idle.push(file).is_ok(),
            None => false,
        };
        if !is_kept {
            self.bytes.fetch_sub(bytes, Ordering::SeqCst);
        }
    }

    /// Cuts at most this many bytes off a file that was idle for `least` calls of `age`. Returns how many.
    fn cut(&self, least: u32, most: u64) -> u64 {
        let Some(mut file) = self.take_old(least) else {
            return 0;
        };
        // Nobody else has the file now, and no lock is held.
        let cut = file.cut(most);
        self.bytes.fetch_sub(cut, Ordering::SeqCst);
        self.put(file);
        cut
    }

    fn take_old(&self, least: u32) -> Option<IdleFile> {
        let mut idle = self.idle()?;
        take_of_age(&mut idle, least)
    }

    /// Cuts this many bytes off idle files, or as many as they have. Returns how many.
    fn give_back(&self, bytes: u64) -> u64 {
        let mut given = 0u64;
        for _ in 0..CUTS {
            if given >= bytes {
                break;
            }
            let cut = self.cut(0, bytes.saturating_sub(given).max(PIECE));
            if cut == 0 {
                break;
            }
            given = given.saturating_add(cut);
        }
        given
    }

    fn age(&self) {
        let Some(mut idle) = self.idle() else {
            return;
        };
        for file in idle.iter_mut() {
            file.age = file.age.saturating_add(1);
        }
    }
}

/// The space that the scratch files of several lanes take.
///
/// The devices of these lanes share it with a thread that calls `age` and `cut`. Without such a thread, idle
/// files keep their bytes until the disk is full. The head of this module says more.
#[derive(Drop)]
pub struct ScratchSpace {
    lanes: Vec<LaneFiles>,
}

impl ScratchSpace {
    /// A space for this many lanes, without files.
    pub fn new(alloc: Global, lanes: u32) -> Result<Self, AllocError> {
        let mut all = Vec::with_capacity(alloc, lanes as usize)?;
        for _ in 0..lanes {
            all.push(LaneFiles::new(alloc)?)?;
        }
        Ok(ScratchSpace { lanes: all })
    }

    /// How many bytes the files of all lanes have, also those without objects, up to the end of the last
    /// slot of each file.
    pub fn bytes(&self) -> u64 {
        let mut sum = 0u64;
        for lane in &self.lanes {
            sum = sum.saturating_add(lane.bytes.load(Ordering::SeqCst));
        }
        sum
    }

    /// The same of one lane. 0 if there is no such lane.
    pub fn bytes_of(&self, lane: u32) -> u64 {
        match self.lanes.get(lane as usize) {
            Some(files) => files.bytes.load(Ordering::SeqCst),
            None => 0,
        }
    }

    /// Makes all idle files older. To be called once a second: `cut` takes files that are 5 calls old.
    pub fn age(&self) {
        for lane in &self.lanes {
            lane.age();
        }
    }

    /// Cuts at most 1 MiB off a file that was idle for a while. Returns how many bytes: 0 if there is no
    /// such file, or if the system does not cut it.
    pub fn cut(&self) -> u64 {
        for lane in &self.lanes {
            let cut = lane.cut(GRACE, PIECE);
            if cut > 0 {
                return cut;
            }
        }
        0
    }

    /// Cuts this many bytes off idle files of the lane, however short they were idle. They may be more, up
    /// to 1 MiB, or fewer, if the idle files have not as many.
    pub fn give_back(&self, lane: u32, bytes: u64) {
        if let Some(files) = self.lanes.get(lane as usize) {
            files.give_back(bytes);
        }
    }

    /// The same for all lanes. Returns how many bytes were cut.
    pub(crate) fn give_back_any(&self, bytes: u64) -> u64 {
        let mut given = 0u64;
        for lane in &self.lanes {
            if given >= bytes {
                break;
            }
            given = given.saturating_add(lane.give_back(bytes.saturating_sub(given)));
        }
        given
    }

    /// A file of the lane became longer by this many bytes.
    pub(crate) fn grow(&self, lane: u32, bytes: u64) {
        if let Some(files) = self.lanes.get(lane as usize) {
            files.bytes.fetch_add(bytes, Ordering::SeqCst);
        }
    }

    /// Takes an idle file of the lane's class, if there is one.
    pub(crate) fn take(&self, lane: u32, class: u8) -> Option<IdleFile> {
        let files = self.lanes.get(lane as usize)?;
        let mut idle = files.idle()?;
        take_of_class(&mut idle, class)
    }

    /// Adds the file to the idle ones of the lane. If it can't, the file is closed.
    pub(crate) fn put(&self, lane: u32, file: IdleFile) {
        if let Some(files) = self.lanes.get(lane as usize) {
            files.put(file);
        }
    }
}
