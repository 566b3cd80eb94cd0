//! One line after another from a reader, no more of a line than a good line may have and a byte.
ghost use Rattle.std.specs.Prelude.{◌≡◌, ◌≢◌, ◌+◌, ◌<◌, ◌≤◌, ◌↔◌, [], ◌∷◌, true, false, length, min, take, All, slice_index, vec_len, IsTrue, IfSome, IfOk, IfErr, MatchOption};
ghost use Rattle.std.specs.Io.KnownBytes.{Keeps, prepend_known};
ghost use Rattle.command_file.specs.Reading.{IsOfReading, HasNoFeed, ReadsLine, Ends};

use crate::fault::FileFault;
use crate::parse::LONGEST_LINE;
use crate::search::first_place;
use std::io::{BufRead, ErrorKind};

/// What a reader had.
pub(crate) enum LineRead {
    /// No byte.
    End,
    /// A line that is short enough.
    Line,
    /// More bytes than a line may have, and no LF among them.
    TooLong,
}

/// Reads the next line, without its LF, in place of what `line` held.
pub(crate) fn next_line<R: BufRead>(file: &mut R, line: &mut Vec<u8>) -> Result<LineRead, FileFault>
    ensures bounded { vec_len line.new ≤ LONGEST_LINE + 1 }
    ensures read { IfOk result (λ read. ReadsLine (R.remaining file.old) (R.remaining file.new) line.new.items read) }
    ensures fault { IfErr result (λ fault. IsOfReading fault) }
{
    line.clear();
    for _ in 0..u64::MAX {
        if let Some(read) = read_on(file, line)? {
            return Ok(read);
        }
    }
    Err(FileFault::Read)
}

/// Moves what the reader shows of the line behind what the line holds of it. `None` where more is to come.
fn read_on<R: BufRead>(file: &mut R, line: &mut Vec<u8>) -> Result<Option<LineRead>, FileFault>
    requires short { vec_len line.old ≤ LONGEST_LINE }
    requires no_feed { HasNoFeed line.old.items }
    ensures bounded { vec_len line.new ≤ LONGEST_LINE + 1 }
    ensures read { IfOk result (λ read. MatchOption read
        ((length line.new.items ≤ LONGEST_LINE) × HasNoFeed line.new.items
        × Keeps (prepend_known line.old.items (R.remaining file.old)) (prepend_known line.new.items (R.remaining file.new)))
        (λ read. ReadsLine (prepend_known line.old.items (R.remaining file.old)) (R.remaining file.new) line.new.items read)) }
    ensures fault { IfErr result (λ fault. IsOfReading fault) }
{
    let available = match file.fill_buf() {
        Ok(available) => available,
        Err(error) => {
            return if error.kind() == ErrorKind::Interrupted {
                Ok(None)
            } else {
                Err(FileFault::Read)
            };
        }
    };
    let is_at_end = available.is_empty();
    let room = LONGEST_LINE + 1 - line.len();
    let (count, has_feed) = line_part(available, room);
    line.extend_from_slice(&available[..count])?;
    file.consume(count + usize::from(has_feed));
    Ok(line_read(line, is_at_end, has_feed))
}

/// How many of the bytes, and at most `room`, stand before an LF, and whether that LF is within `room`.
fn line_part(bytes: &[u8], room: usize) -> (usize, bool)
    requires { 0 < room }
    ensures before { HasNoFeed (take result.0 bytes.now) }
    ensures feed { result.1 ≡ true → (result.0 < length bytes.now) × (result.0 < room) × (slice_index bytes.now result.0 ≡ 10) }
    ensures none { result.1 ≡ false → result.0 ≡ min (length bytes.now) room }
{
    let near = &bytes[..bytes.len().min(room)];
    match first_place(b'\n', near) {
        Some(at) => (at, true),
        None => (near.len(), false),
    }
}

/// What was read, if the line is now whole or too long.
fn line_read(line: &[u8], is_at_end: bool, has_feed: bool) -> Option<LineRead>
    ensures { Ends line.now is_at_end has_feed result }
{
    if has_feed || (is_at_end && !line.is_empty()) {
        Some(LineRead::Line)
    } else if is_at_end {
        Some(LineRead::End)
    } else if line.len() > LONGEST_LINE {
        Some(LineRead::TooLong)
    } else {
        None
    }
}

/// Whether no byte is left.
pub(crate) fn is_at_end<R: BufRead>(file: &mut R) -> Result<bool, FileFault>
    ensures keeps { Keeps (R.remaining file.old) (R.remaining file.new) }
    ensures value { IfOk result (λ end. IfSome (R.remaining file.old) (λ bytes. IsTrue end ↔ (bytes ≡ []))) }
    ensures fault { IfErr result (λ fault. IsOfReading fault) }
{
    for _ in 0..u64::MAX {
        match file.fill_buf() {
            Ok(available) => return Ok(available.is_empty()),
            Err(error) => {
                if error.kind() != ErrorKind::Interrupted {
                    return Err(FileFault::Read);
                }
            }
        }
    }
    Err(FileFault::Read)
}
