//! The reader and the writer of a `Wire`: one says whether its next bytes are there, and the other when its
//! bytes are handed on. So replies can wait for each other, and never wait while the loop does.
ghost use Rattle.std.specs.Prelude.{◌≡◌};

use std::io;
use std::io::{BufRead, BufReader, BufWriter, Read, Write};

/// A reader of packets.
pub trait PacketInput: BufRead {
    ghost use Rattle.std.specs.Prelude.{Bool};

    /// Whether the next read returns without waiting.
    ghost filled: { Self → Bool };

    /// Whether bytes were read ahead, or the reader never waits. The next read does not wait then.
    fn is_filled(&self) -> bool
        ensures { result ≡ filled self.now };
}

/// A writer of packets.
pub trait PacketOutput: Write {
    ghost use Rattle.std.specs.Prelude.{OnOk};
    ghost use Rattle.std.specs.Io.KnownBytes.{Keeps};

    /// Whether all bytes that the writer took were handed on.
    ghost handed_on: { Self → Type 0 };

    /// Hands on all bytes that the writer took. The errors are those of the writer behind it.
    fn hand_on(&mut self) -> io::Result<()>
        ensures all { OnOk result (handed_on self.new) }
        ensures same { Keeps (Self.contents self.old) (Self.contents self.new) };
}

impl<R: Read> PacketInput for BufReader<R> {
    ghost use Rattle.std.specs.Prelude.{length, nat_lt};
    ghost use Rattle.std.specs.Io.Buffered.{reader_buffer};

    ghost filled = { λ reader. nat_lt 0 (length (reader_buffer reader)) };

    fn is_filled(&self) -> bool {
        !self.buffer().is_empty()
    }
}

/// Bytes in memory. They are never waited for.
impl PacketInput for &[u8] {
    ghost use Rattle.std.specs.Prelude.{true};

    ghost filled = { λ _. true };

    fn is_filled(&self) -> bool {
        true
    }
}

impl<W: Write + Drop> PacketOutput for BufWriter<W> {
    ghost use Rattle.std.specs.Prelude.{◌≡◌, []};
    ghost use Rattle.std.specs.Io.Buffered.{writer_buffer};

    ghost handed_on = { λ writer. writer_buffer writer ≡ [] };

    fn hand_on(&mut self) -> io::Result<()> {
        self.flush()
    }
}

/// Bytes in memory. They are where they go as soon as they are taken.
impl PacketOutput for Vec<u8> {
    ghost use Rattle.std.specs.Prelude.{⊤};

    ghost handed_on = { λ _. ⊤ };

    fn hand_on(&mut self) -> io::Result<()> {
        Ok(())
    }
}
