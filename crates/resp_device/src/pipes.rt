//! A reader and a writer as one.
ghost use Rattle.std.specs.Prelude.{◌≡◌};

use std::io::{Read, Result, Write};

/// A reader and a writer, as the two ends of a pair of pipes. A socket needs none: it is both.
#[derive(Drop)]
pub struct Pipes<R, W> {
    input: R,
    output: W,
}

impl<R, W> Pipes<R, W> {
    /// What is read comes from `input`, and what is written goes to `output`.
    pub fn new(input: R, output: W) -> Self
        ensures { (result.input ≡ input) × (result.output ≡ output) }
    {
        Pipes { input, output }
    }
}

impl<R: Read, W> Read for Pipes<R, W> {
    ghost remaining = { λ pipes. R.remaining pipes.input };

    fn read(&mut self, buf: &mut [u8]) -> Result<usize> {
        self.input.read(buf)
    }
}

impl<R, W: Write> Write for Pipes<R, W> {
    ghost contents = { λ pipes. W.contents pipes.output };

    fn write(&mut self, buf: &[u8]) -> Result<usize> {
        self.output.write(buf)
    }

    fn flush(&mut self) -> Result<()> {
        self.output.flush()
    }
}
