//! Whole lines at the front of bytes, many at a time.
//!
//! A window of as many bytes as the longest line has with its LF holds no line that is too long before its last LF. So that LF
//! is looked for from the window's end, and the LFs up to it are only counted.
ghost use Rattle.std.specs.Prelude.{◌≤◌, length, take};
ghost use Rattle.command_file.specs.Reading.{AreWhole};

use crate::parse::LONGEST_LINE;
use crate::search::{first_place, last_place, times};

/// How many bytes whole lines take at the front of these bytes, and how many lines they are: no more than so many, and none
/// that is too long.
pub(crate) fn whole_lines(bytes: &[u8], most: u32) -> (usize, u32)
    ensures whole { AreWhole (take result.0 bytes.now) result.1 }
    ensures within { result.0 ≤ length bytes.now }
    ensures few { result.1 ≤ most }
{
    let mut end = 0;
    let mut count = 0;
    while count < most {
        let (more, lines) = some_lines(&bytes[end..], most - count);
        if lines == 0 {
            break;
        }
        end += more;
        count += lines;
    }
    (end, count)
}

/// The same of some of them, or of none where there is none.
fn some_lines(bytes: &[u8], most: u32) -> (usize, u32)
    ensures whole { AreWhole (take result.0 bytes.now) result.1 }
    ensures within { result.0 ≤ length bytes.now }
    ensures few { result.1 ≤ most }
{
    let (end, count) = window_lines(bytes);
    if count <= most {
        (end, count)
    } else {
        lines_one_by_one(bytes, most)
    }
}

/// The whole lines of the first window.
fn window_lines(bytes: &[u8]) -> (usize, u32)
    ensures whole { AreWhole (take result.0 bytes.now) result.1 }
    ensures within { result.0 ≤ length bytes.now }
{
    let window = &bytes[..bytes.len().min(LONGEST_LINE + 1)];
    match last_place(b'\n', window) {
        Some(at) => (at + 1, times(b'\n', &window[..at + 1])),
        None => (0, 0),
    }
}

/// The same, one line after another: a window may have more lines than so many.
fn lines_one_by_one(bytes: &[u8], most: u32) -> (usize, u32)
    ensures whole { AreWhole (take result.0 bytes.now) result.1 }
    ensures within { result.0 ≤ length bytes.now }
    ensures few { result.1 ≤ most }
{
    let mut end = 0;
    for count in 0..most {
        match first_place(b'\n', &bytes[end..]) {
            Some(at) if at <= LONGEST_LINE => end += at + 1,
            _ => return (end, count),
        }
    }
    (end, most)
}
