//! Faults that end the program, and the exit status of each.

use crate::session_end::SessionFault;
use far_map::MapFault;
use file_device::DiskFault;
use std::fmt::{Display, Formatter};
use std::io::ErrorKind;
use std::{fmt, io};

/// Why the program ends early. Its text is the line on standard error.
#[derive(Drop, Debug)]
pub enum FarcallsFault<'a> {
    /// The text of this option is no number within these bounds: the least and the most.
    Number(&'static str, &'a str, u64, u64),
    /// There are fewer version numbers than a map of so many buckets needs.
    Names(u64, u64),
    /// This many bytes of memory are too few for the sessions. The second number is how many would do.
    Little(u64, u64),
    /// This folder can't be used, because of this fault. None if the path is empty.
    Folder(&'a str, Option<DiskFault>),
    /// There are more than 64 folders.
    Folders,
    /// The system gives no random bytes.
    Random(io::Error),
    /// An allocation failed.
    Memory,
    /// The map could not be run, or its devices failed.
    Run(MapFault),
    /// A session ended before its requests did.
    Session(SessionFault),
}

/// Why the system did not open scratch files in a folder, and what would do. None if there are no words for it
/// here.
fn words_of(fault: DiskFault) -> Option<&'static str> {
    let DiskFault::Io(_, kind) = fault else {
        return None;
    };
    match kind {
        ErrorKind::NotFound => Some("no such file or directory; make the folder first"),
        ErrorKind::PermissionDenied => {
            Some("permission denied; the user of this process has to be able to make files in it")
        }
        ErrorKind::NotADirectory => Some("not a directory; name a folder"),
        ErrorKind::ReadOnlyFilesystem => {
            Some("read-only file system; name a folder on a disk that takes writes")
        }
        ErrorKind::StorageFull => Some("no space left on device; make room on its disk"),
        ErrorKind::QuotaExceeded => Some("disk quota exceeded; raise the quota"),
        ErrorKind::InvalidFilename => Some("file name too long; name a shorter path"),
        _ => None,
    }
}

impl FarcallsFault<'_> {
    /// The exit status: 1 for what the system refused and for parts that failed, 2 for wrong options and
    /// folders.
    pub fn status(&self) -> u8 {
        match self {
            FarcallsFault::Random(_)
            | FarcallsFault::Memory
            | FarcallsFault::Run(_)
            | FarcallsFault::Session(_) => 1,
            _ => 2,
        }
    }
}

impl Display for FarcallsFault<'_> {
    fn fmt<W: fmt::Write>(&self, f: &mut Formatter<W>) -> fmt::Result {
        match self {
            FarcallsFault::Number(option, text, least, most) => {
                write!(f, "{option} {text}: no number from {least} to {most}")
            }
            FarcallsFault::Names(names, least) => write!(
                f,
                "names {names}: too few for so many buckets; {least} would do"
            ),
            FarcallsFault::Little(bytes, least) => write!(
                f,
                "memory {bytes}: too little for so many sessions; {least} would do"
            ),
            FarcallsFault::Folder(path, None) => {
                write!(f, "folder {path}: the path is empty; name a folder")
            }
            FarcallsFault::Folder(path, Some(fault)) => match words_of(*fault) {
                Some(words) => write!(f, "folder {path}: {words}"),
                None => write!(f, "folder {path}: {fault}"),
            },
            FarcallsFault::Folders => f.write_str("more than 64 folders"),
            FarcallsFault::Random(fault) => write!(f, "the system gives no random bytes: {fault}"),
            FarcallsFault::Memory => f.write_str("memory was refused"),
            FarcallsFault::Run(fault) => write!(f, "the map could not be run: {fault}"),
            FarcallsFault::Session(fault) => write!(f, "a session has ended: {fault}"),
        }
    }
}
