//! A stream that is read.
ghost use Rattle.std.specs.Prelude.{◌≡◌, ◌<◌, IfOk};
ghost use Rattle.streams.specs.Ends.{still_to_read, IsUnread};

use std::alloc::{AllocError, Global};
use std::io;
use std::io::{BufReader, Error, ErrorKind, Read};

/// What is read as a stream: a file, the stream's number, and how many bytes were read of it.
///
/// What is trusted: the stream with this number is read by this value alone, and `read` of the file returns the
/// bytes that it has.
#[derive(Drop)]
pub struct StreamReader<F: Read> {
    file: F,
    stream: u32,
    read: u64,
}

impl<F: Read + Drop> StreamReader<F> {
    /// The reader of a stream of which nothing was read. Each number is given once.
    pub fn new(file: F, stream: u32) -> Self
        ensures stream { result.stream ≡ stream }
        ensures read { result.read ≡ 0 }
    {
        StreamReader {
            file,
            stream,
            read: 0,
        }
    }

    /// The same behind a buffer of so many bytes. `AllocError` is returned if there is no memory for it.
    pub fn buffered(
        alloc: Global,
        bytes: usize,
        file: F,
        stream: u32,
    ) -> Result<BufReader<StreamReader<F>>, AllocError>
        requires some { 0 < bytes }
        ensures unread { IfOk result (λ reader. IsUnread stream reader) }
    {
        match BufReader::with_capacity(alloc, bytes, StreamReader::new(file, stream)) {
            Ok(reader) => Ok(reader),
            Err(_) => Err(AllocError),
        }
    }
}

impl<F: Read + Drop> Read for StreamReader<F> {
    ghost remaining = { still_to_read };

    /// `InvalidData` after 2^64 - 1 bytes, which no stream ever has. All other errors are the file's.
    fn read(&mut self, buf: &mut [u8]) -> io::Result<usize> {
        if self.read > u64::MAX - buf.len() as u64 {
            return Err(Error::from(ErrorKind::InvalidData));
        }
        let count = self.file.read(buf)?;
        self.read += count as u64;
        Ok(count)
    }
}
