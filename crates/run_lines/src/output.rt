//! What a run writes: the lines of its files, and the contents behind them.
ghost use Rattle.std.specs.Prelude.{◌≡◌, ◌+◌, ◌++◌, [], ◌∷◌, map, codes, decimal, OnOk};
ghost use Rattle.std.specs.Io.KnownBytes.{Appends};
ghost use Rattle.run_lines.specs.Output.{written, pair_line, file_texts};

use crate::pair::Pair;
use itoa::Buffer;
use std::io;
use std::io::Write;

/// Writes the line of a file's number, and the file's lines.
fn write_file<W: Write>(out: &mut W, number: usize, lines: &[u8]) -> io::Result<()>
    ensures { OnOk result (Appends (W.contents out.old) (W.contents out.new) (codes "file " ++ (decimal number ++ 10 ∷ lines.now))) }
{
    let mut digits = Buffer::new();
    out.write_all(b"file ")?;
    out.write_all(digits.format(number).as_bytes())?;
    out.write_all(b"\n")?;
    out.write_all(lines)
}

/// Writes the lines of the files, each behind the line `file N`; the first file has the number 1. A text has the lines
/// of a file, each with an LF behind it.
pub fn write_files<W: Write>(out: &mut W, texts: &[Vec<u8>]) -> io::Result<()>
    ensures { OnOk result (Appends (W.contents out.old) (W.contents out.new) (file_texts 1 (map (λ t. t.items) texts.now))) }
{
    for (at, text) in texts.iter().enumerate() {
        write_file(out, at + 1, text.as_slice())?;
    }
    Ok(())
}

/// Writes a pair as a line.
fn write_pair<W: Write, P: Pair>(out: &mut W, pair: &P) -> io::Result<()>
    ensures { OnOk result (Appends (W.contents out.old) (W.contents out.new) (pair_line (P.texts_of pair.now) ++ 10 ∷ [])) }
{
    out.write_all(pair.key())?;
    out.write_all(b" ")?;
    out.write_all(pair.value())?;
    out.write_all(b"\n")
}

/// Writes each pair as a line.
pub(crate) fn write_pairs<W: Write, P: Pair>(out: &mut W, pairs: &[P]) -> io::Result<()>
    ensures { OnOk result (Appends (W.contents out.old) (W.contents out.new) (written (map (λ e. pair_line (P.texts_of e)) pairs.now))) }
{
    for pair in pairs {
        write_pair(out, pair)?;
    }
    Ok(())
}

/// Writes the contents behind the lines of the files: the line `contents`, and each pair as a line `K V`. Then it flushes.
pub fn write_contents<W: Write, P: Pair>(out: &mut W, pairs: &[P]) -> io::Result<()>
    ensures { OnOk result (Appends (W.contents out.old) (W.contents out.new) (written (codes "contents" ∷ map (λ e. pair_line (P.texts_of e)) pairs.now))) }
{
    out.write_all(b"contents\n")?;
    write_pairs(out, pairs)?;
    out.flush()
}
