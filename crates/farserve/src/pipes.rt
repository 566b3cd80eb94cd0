//! The named pipes between the server and the gateway. In one folder, `requests0` and `replies0` are those of
//! worker 0, and so on.
ghost use Rattle.std.specs.Prelude.{IfOk};
ghost use Rattle.streams.specs.Ends.{IsUnread, IsUnwritten};

use far_server::{Pipes, PipesFault};
use std::alloc::Global;
use std::fs::{File, OpenOptions};
use std::io::{BufReader, BufWriter};
use std::rt::Files;
use streams::{StreamReader, StreamWriter};

/// Bytes that a buffer has: as many as a pipe of Linux holds.
const PIECE: usize = 1 << 16;

/// A pipe that is read.
pub type Input = BufReader<StreamReader<File>>;

/// A pipe that is written.
pub type Output = BufWriter<StreamWriter<File>>;

/// Opens two named pipes: `input` to read, then `output` to write. Waits until the gateway opens them too.
/// No other pipes of this process have the number `pipe`.
///
/// `PipesFault::Io` is returned if the system can't open one, and `PipesFault::Memory` if there is no memory
/// for their buffers.
pub fn open_pair<R: Files<File = File>>(
    rt: &R,
    alloc: Global,
    input: &str,
    output: &str,
    pipe: u32,
) -> Result<(Input, Output), PipesFault>
    ensures { IfOk result (λ both. IsUnread pipe both.0 × IsUnwritten pipe both.1) }
{
    let Ok(input) = File::open(rt, input) else {
        return Err(PipesFault::Io);
    };
    let mut options = OpenOptions::new();
    options.write(true);
    let Ok(output) = options.open(rt, output) else {
        return Err(PipesFault::Io);
    };
    let (Ok(input), Ok(output)) = (
        StreamReader::buffered(alloc, PIECE, input, pipe),
        StreamWriter::buffered(alloc, PIECE, output, pipe),
    ) else {
        return Err(PipesFault::Memory);
    };
    Ok((input, output))
}

/// The pipes of all workers, in this folder.
#[derive(Drop)]
pub struct NamedPipes<'a> {
    pub rt: HostRuntime,
    pub folder: &'a str,
}

impl Pipes for NamedPipes<'_> {
    ghost opens = { λ _ worker input output. IsUnread worker input × IsUnwritten worker output };

    type Input = Input;

    type Output = Output;

    fn open(&self, alloc: Global, worker: u32) -> Result<(Self::Input, Self::Output), PipesFault> {
        let folder = self.folder;
        let (Ok(requests), Ok(replies)) = (
            format!(in alloc; "{folder}/requests{worker}"),
            format!(in alloc; "{folder}/replies{worker}"),
        ) else {
            return Err(PipesFault::Memory);
        };
        open_pair(&self.rt, alloc, requests.as_str(), replies.as_str(), worker)
    }
}
