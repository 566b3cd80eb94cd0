//! A stream that is written.
ghost use Rattle.std.specs.Prelude.{◌≡◌, IfOk};
ghost use Rattle.streams.specs.Ends.{written_by, IsUnwritten};

use std::alloc::{AllocError, Global};
use std::io;
use std::io::{BufWriter, Error, ErrorKind, Write};

/// What is written as a stream: a file, the stream's number, and how many bytes were written to it.
///
/// What is trusted: the stream with this number is written by this value alone, and the bytes that `write` of the
/// file takes reach it.
#[derive(Drop)]
pub struct StreamWriter<F: Write> {
    file: F,
    stream: u32,
    written: u64,
}

impl<F: Write + Drop> StreamWriter<F> {
    /// The writer of a stream to which nothing was written. Each number is given once.
    pub fn new(file: F, stream: u32) -> Self
        ensures stream { result.stream ≡ stream }
        ensures written { result.written ≡ 0 }
    {
        StreamWriter {
            file,
            stream,
            written: 0,
        }
    }

    /// The same behind a buffer of so many bytes. `AllocError` is returned if there is no memory for it.
    pub fn buffered(
        alloc: Global,
        bytes: usize,
        file: F,
        stream: u32,
    ) -> Result<BufWriter<StreamWriter<F>>, AllocError>
        ensures unwritten { IfOk result (λ writer. IsUnwritten stream writer) }
    {
        match BufWriter::with_capacity(alloc, bytes, StreamWriter::new(file, stream)) {
            Ok(writer) => Ok(writer),
            Err(_) => Err(AllocError),
        }
    }
}

impl<F: Write + Drop> Write for StreamWriter<F> {
    ghost contents = { written_by };

    /// `InvalidData` after 2^64 - 1 bytes, which no stream ever has. All other errors are the file's.
    fn write(&mut self, buf: &[u8]) -> io::Result<usize> {
        if self.written > u64::MAX - buf.len() as u64 {
            return Err(Error::from(ErrorKind::InvalidData));
        }
        let count = self.file.write(buf)?;
        self.written += count as u64;
        Ok(count)
    }

    fn flush(&mut self) -> io::Result<()> {
        self.file.flush()
    }
}
