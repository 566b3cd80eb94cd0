//! The lines of the faults that people can mend, with the system's reason, or a setting's limits, and what would do.

use crate::command_line::CommandLine;
use crate::fault::FarrunFault;
use far_driver::{ProgramFault, RunFault};
use file_device::{DiskFault, FileDisk, FolderFault};
use std::io;
use std::io::ErrorKind;

/// A setting of the command line, with its limits and a number that would do.
#[derive(Clone, Copy)]
struct Setting {
    name: &'static str,
    least: u32,
    most: u32,
    example: u32,
}

/// The settings, in the order of the words. The number of the first is 1.
const SETTINGS: [Setting; 3] = [
    Setting {
        name: "BUCKETS",
        least: 1,
        most: 65_536,
        example: 1_024,
    },
    Setting {
        name: "FRAMES",
        least: 1,
        most: 65_536,
        example: 256,
    },
    Setting {
        name: "LIMIT",
        least: 4,
        most: 1_048_576,
        example: 4_096,
    },
];

/// The system's words for a folder or a pipe that can't be used, and what would do for a folder. None if there are none here.
fn folder_words(kind: ErrorKind) -> Option<(&'static str, &'static str)> {
    match kind {
        ErrorKind::NotFound => Some(("No such file or directory", "make the folder first")),
        ErrorKind::PermissionDenied => Some((
            "Permission denied",
            "the run has to be able to make files in it",
        )),
        ErrorKind::NotADirectory => Some(("Not a directory", "name a folder")),
        ErrorKind::ReadOnlyFilesystem => Some((
            "Read-only file system",
            "name a folder on a disk that takes writes",
        )),
        ErrorKind::StorageFull => Some(("No space left on device", "make room on its disk")),
        ErrorKind::QuotaExceeded => Some(("Disk quota exceeded", "raise the quota")),
        _ => None,
    }
}

/// Prints the line of a folder that can't be used. To learn the reason, the folder is tried once more.
fn tell_folder<R: Eprint>(
    rt: &R,
    host: HostRuntime,
    asked: &CommandLine<'_>,
    number: u32,
) -> io::Result<()> {
    let place = number.saturating_sub(1) as usize;
    let folder = asked.folders.get(place).copied().unwrap_or("");
    if folder.is_empty() {
        return eprintln!(rt; "far {number}: cannot open: the path is empty; name a folder");
    }
    match FileDisk::open(host, folder, 0) {
        Err(DiskFault::Io(step, kind)) => match folder_words(kind) {
            Some((reason, advice)) => {
                eprintln!(rt; "far {number}: cannot open: {folder}: {reason}; {advice}")
            }
            None => eprintln!(rt; "far {number}: cannot open: {folder}: {step}: {kind}"),
        },
        _ => eprintln!(rt; "far {number}: cannot open"),
    }
}

/// Prints the line of a pair of pipes that can't be opened.
fn tell_pipes<R: Eprint>(rt: &R, number: usize, kind: ErrorKind) -> io::Result<()> {
    match folder_words(kind) {
        Some((reason, _)) => {
            eprintln!(rt;
                "far-resp {number}: cannot open: {reason}; make both pipes first, and let this user use them"
            )
        }
        None => eprintln!(rt; "far-resp {number}: cannot open: {kind}"),
    }
}

/// Prints the line of a setting that is outside its limits.
fn tell_setting<R: Eprint>(rt: &R, asked: &CommandLine<'_>, number: u32) -> io::Result<()> {
    let place = number.saturating_sub(1) as usize;
    match (SETTINGS.get(place), asked.words.get(place)) {
        (Some(setting), Some(word)) => {
            let Setting {
                name,
                least,
                most,
                example,
            } = *setting;
            eprintln!(rt;
                "bad config {number}: {name} {word}: no number from {least} to {most}; {example} would do"
            )
        }
        _ => eprintln!(rt; "bad config {number}"),
    }
}

/// Prints why a run ended early, and gives the status.
pub fn tell_fault<R: Eprint>(
    rt: &R,
    host: HostRuntime,
    asked: &CommandLine<'_>,
    fault: FarrunFault,
) -> u8 {
    let _ = match fault {
        FarrunFault::Folder(FolderFault::CannotOpen(number)) => tell_folder(
            rt, host, asked, number,
        ),
        FarrunFault::Store(number, kind) => tell_pipes(rt, number, kind),
        FarrunFault::Program(ProgramFault::Run(RunFault::BadConfig(number))) => {
            tell_setting(rt, asked, number)
        }
        _ => eprintln!(rt; "{fault}"),
    };
    fault.status()
}
