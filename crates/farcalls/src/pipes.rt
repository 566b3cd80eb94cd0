//! Where the sessions' packets come from and go to: the named pipes of a folder. There `requests0` and `replies0`
//! are those of session 0, and so on.
ghost use Rattle.std.specs.Prelude.{IfOk};
ghost use Rattle.streams.specs.Ends.{IsUnread, IsUnwritten};

use crate::session_end::SessionFault;
use request_loop::{PacketInput, PacketOutput};
use std::alloc::Global;
use std::fs::{File, OpenOptions};
use std::io::{BufReader, BufWriter};
use std::rt::Files;
use streams::{StreamReader, StreamWriter};

/// Bytes that a buffer has: as many as a pipe of Linux holds.
const PIECE: usize = 1 << 16;

/// A pipe that is read.
pub type Input = BufReader<StreamReader<File>>;

/// A pipe that is written.
pub type Output = BufWriter<StreamWriter<File>>;

/// A reader and a writer for each session. Packets of requests come from the one, and packets of replies go to
/// the other.
pub(crate) trait Pipes {
    ghost use Rattle.std.specs.Prelude.{ℕ, List};

    /// Where requests come from: packets as `request_loop` reads them.
    type Input: PacketInput + Drop;

    /// Where replies go to.
    type Output: PacketOutput + Drop;

    /// Whether the session of this number may be given this reader and this writer.
    ghost opens: { Self → ℕ → Self.Input → Self.Output → Type 0 };

    /// Opens the reader and the writer of a session. Each is opened once, by the session's own thread, which may
    /// wait here for the other side.
    ///
    /// `SessionFault::Pipes` is returned if the system can't open one, and `SessionFault::Memory` if an
    /// allocation fails.
    fn open(&self, alloc: Global, session: u32) -> Result<(Self::Input, Self::Output), SessionFault>
        ensures { IfOk result (λ both. opens self.now session both.0 both.1) };
}

/// The named pipes of all sessions, in this folder.
#[derive(Drop)]
pub struct NamedPipes<'a> {
    pub rt: HostRuntime,
    pub folder: &'a str,
}

/// Opens two named pipes: `input` to read, then `output` to write. Waits until the other side opens them too.
/// No other pipes of this process have the number `pipe`.
fn open_pair<R: Files<File = File>>(
    rt: &R,
    alloc: Global,
    input: &str,
    output: &str,
    pipe: u32,
) -> Result<(Input, Output), SessionFault>
    ensures { IfOk result (λ both. IsUnread pipe both.0 × IsUnwritten pipe both.1) }
{
    let Ok(input) = File::open(rt, input) else {
        return Err(SessionFault::Pipes);
    };
    let mut options = OpenOptions::new();
    options.write(true);
    let Ok(output) = options.open(rt, output) else {
        return Err(SessionFault::Pipes);
    };
    let (Ok(input), Ok(output)) = (
        StreamReader::buffered(alloc, PIECE, input, pipe),
        StreamWriter::buffered(alloc, PIECE, output, pipe),
    ) else {
        return Err(SessionFault::Memory);
    };
    Ok((input, output))
}

impl Pipes for NamedPipes<'_> {
    ghost opens = { λ _ session input output. IsUnread session input × IsUnwritten session output };

    type Input = Input;

    type Output = Output;

    fn open(
        &self,
        alloc: Global,
        session: u32,
    ) -> Result<(Self::Input, Self::Output), SessionFault> {
        let folder = self.folder;
        let (Ok(requests), Ok(replies)) = (
            format!(in alloc; "{folder}/requests{session}"),
            format!(in alloc; "{folder}/replies{session}"),
        ) else {
            return Err(SessionFault::Memory);
        };
        open_pair(
            &self.rt,
            alloc,
            requests.as_str(),
            replies.as_str(),
            session,
        )
    }
}
