//! Reads the password file. Only the password's digest is kept.

use crate::fault::FarserveFault;
use sha2::{Digest, Sha256};
use std::alloc::Global;
use std::fs::File;
use std::io;
use std::io::Read;
use std::rt::Files;

/// The most bytes of the file that are read.
const MOST: u64 = 4096;

/// Reads the first `MOST` bytes of the file.
fn read_front<R: Files<File = File>>(rt: &R, alloc: Global, path: &str) -> io::Result<Vec<u8>> {
    let mut bytes = Vec::new(alloc);
    let mut file = File::open(rt, path)?;
    file.by_ref().take(MOST).read_to_end(&mut bytes)?;
    Ok(bytes)
}

/// The first line, without its LF and a CR before it.
fn first_line(bytes: &[u8]) -> &[u8] {
    let mut line = bytes;
    for (at, byte) in bytes.iter().enumerate() {
        if *byte == b'\n' {
            line = bytes.get(..at).unwrap_or(bytes);
            break;
        }
    }
    line.strip_suffix(b"\r").unwrap_or(line)
}

/// The SHA-256 digest of the password, which is the first line of this file.
///
/// `FarserveFault::Unread` is returned if the file can't be read, and `FarserveFault::Empty` if its first line is empty.
pub fn digest_of<'a, R: Files<File = File>>(
    rt: &R,
    alloc: Global,
    path: &'a str,
) -> Result<[u8; 32], FarserveFault<'a>> {
    let bytes = match read_front(rt, alloc, path) {
        Ok(bytes) => bytes,
        Err(fault) => return Err(FarserveFault::Unread(path, fault)),
    };
    let line = first_line(bytes.as_slice());
    if line.is_empty() {
        return Err(FarserveFault::Empty(path));
    }
    Ok(Sha256::digest(line))
}
