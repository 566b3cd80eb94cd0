//! Faults that end the program, and the exit status of each.

use crate::reasons::folder_words;
use far_map::MapFault;
use far_server::ServeFault;
use file_device::DiskFault;
use std::fmt::{Display, Formatter};
use std::{fmt, io};

/// Why the program ends early. Its text is the line on standard error.
#[derive(Drop, Debug)]
pub enum FarserveFault<'a> {
    /// The text of this option is no size within these bounds: the least and the most, in bytes.
    Size(&'static str, &'a str, u64, u64),
    /// The text of `--names` is no number within these bounds.
    Names(&'a str, u64, u64),
    /// The text of `--bind` is no IP address.
    Bind(&'a str),
    /// The address of `--bind` is not loopback, and there is no password: everybody could get in.
    Open(&'a str),
    /// The text of `--unix` is no path at which a socket can be made: it has no byte, or more than 107.
    Unix(&'a str),
    /// The memory of `--memory` is too little for the buckets, the threads and the longest value. The number
    /// is how many MiB would do; none if no amount would.
    Little(&'a str, Option<u64>),
    /// There is no `--pipes`, that is no gateway.
    Pipes,
    /// This password file can't be read.
    Unread(&'a str, io::Error),
    /// This password file begins with an empty line.
    Empty(&'a str),
    /// This folder can't be used, because of this fault. None if the path is empty.
    Folder(&'a str, Option<DiskFault>),
    /// There are more than 64 folders.
    Folders,
    /// The text of `--far-resp` is no address of a store.
    Store(&'a str),
    /// This option is about a store, and there is none.
    Storeless(&'static str),
    /// This option is about folders, and there is a store in their place.
    Stored(&'static str),
    /// The pipes to the gateway's links to a store can't be opened.
    Links,
    /// The system gives no random bytes.
    Random(io::Error),
    /// An allocation failed.
    Memory,
    /// The gateway's arguments could not be written to standard output.
    Write,
    /// The map could not be run, or its devices failed.
    Run(MapFault),
    /// A worker ended before its requests did.
    Worker(ServeFault),
}

/// A size that this option takes.
fn size_for(option: &str) -> &'static str {
    match option {
        "memory" => "256m",
        "value-limit" => "1m",
        _ => "10g",
    }
}

impl FarserveFault<'_> {
    /// The exit status: 1 for what the system refused and for parts that failed, 2 for wrong options, folders
    /// and password files.
    pub fn status(&self) -> u8 {
        match self {
            FarserveFault::Random(_)
            | FarserveFault::Memory
            | FarserveFault::Write
            | FarserveFault::Links
            | FarserveFault::Run(_)
            | FarserveFault::Worker(_) => 1,
            _ => 2,
        }
    }
}

impl Display for FarserveFault<'_> {
    fn fmt<W: fmt::Write>(&self, f: &mut Formatter<W>) -> fmt::Result {
        match self {
            FarserveFault::Size(option, text, least, most) => {
                let example = size_for(option);
                write!(
                    f,
                    "--{option} {text}: no size from {least} to {most} bytes; {example} would do"
                )
            }
            FarserveFault::Names(text, least, most) => {
                write!(f, "--names {text}: no number from {least} to {most}")
            }
            FarserveFault::Bind(text) => {
                write!(f, "--bind {text}: no IP address; 127.0.0.1 would do")
            }
            FarserveFault::Open(text) => write!(
                f,
                "--bind {text}: others than this machine could get in, so it needs --password-file"
            ),
            FarserveFault::Unix(text) => write!(f, "--unix {text}: no path of 1 to 107 bytes"),
            FarserveFault::Little(text, None) => write!(
                f,
                "--memory {text}: too little for so many buckets and threads, and for values of --value-limit"
            ),
            FarserveFault::Little(text, Some(least)) => write!(
                f,
                "--memory {text}: too little for so many buckets and threads, and for values of --value-limit: {least}m would do"
            ),
            FarserveFault::Pipes => f.write_str("it has no gateway; bin/farserve starts both"),
            FarserveFault::Unread(path, fault) => write!(f, "--password-file {path}: {fault}"),
            FarserveFault::Empty(path) => write!(
                f,
                "--password-file {path}: its first line is empty"
            ),
            FarserveFault::Folder(path, None) => write!(
                f,
                "--far {path}: cannot open: the path is empty; name a folder"
            ),
            FarserveFault::Folder(path, Some(fault)) => match folder_words(*fault) {
                Some((reason, advice)) => write!(
                    f,
                    "--far {path}: cannot open: {reason}; {advice}"
                ),
                None => write!(f, "--far {path}: cannot open: {fault}"),
            },
            FarserveFault::Folders => f.write_str("--far: more than 64 folders"),
            FarserveFault::Store(text) => write!(
                f,
                "--far-resp {text}: neither HOST:PORT nor the path of a socket"
            ),
            FarserveFault::Storeless(option) => write!(
                f,
                "--{option}: it is of a store, and there is no --far-resp"
            ),
            FarserveFault::Stored(option) => write!(
                f,
                "--{option}: it is of folders, and --far-resp takes their place"
            ),
            FarserveFault::Links => f.write_str("the pipes to the far store can't be opened"),
            FarserveFault::Random(fault) => write!(f, "the system gives no random bytes: {fault}"),
            FarserveFault::Memory => f.write_str("memory"),
            FarserveFault::Write => f.write_str("standard output can't be written"),
            FarserveFault::Run(fault) => write!(f, "the map could not be run: {fault}"),
            FarserveFault::Worker(fault) => write!(f, "a worker has ended: {fault}"),
        }
    }
}
