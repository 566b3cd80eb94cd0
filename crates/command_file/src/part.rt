//! The commands of a part of a text, or of all of it.
ghost use Rattle.std.specs.Prelude.{◌≡◌, ◌+◌, ◌<◌, ◌^◌, [], length, MatchOption};
ghost use Rattle.command_file.specs.Parts.{IsPlaced};
ghost use Rattle.command_file.specs.Scripts.{BeginsSo};

use crate::fault::FileFault;
use crate::parse::{Line, place_line};
use crate::place::Place;
use crate::search::first_place;
use std::alloc::Global;

/// The most lines of a file.
pub(crate) const MOST_LINES: u32 = 65_536;

/// Where the commands lie that a part's lines say, and how many lines it has. The places are those in the whole text, so that
/// the commands of another part can be put behind them as they are.
#[derive(Drop)]
pub(crate) struct Part {
    pub(crate) places: Vec<Place>,
    pub(crate) lines: u32,
}

/// The first line of the bytes, without its LF, and what stands behind it; none where there is no byte.
fn first_line(bytes: &[u8]) -> Option<(&[u8], &[u8])>
    ensures { MatchOption result (bytes.now ≡ []) (λ parts. BeginsSo bytes.now parts.0.now parts.1.now) }
{
    if bytes.is_empty() {
        return None;
    }
    match first_place(b'\n', bytes) {
        Some(at) => Some((&bytes[..at], &bytes[at + 1..])),
        None => Some((bytes, &bytes[bytes.len()..])),
    }
}

/// The commands that the lines say of bytes that stand in a text from this place on.
pub(crate) fn place_lines(alloc: Global, bytes: &[u8], from: usize) -> Result<Part, FileFault>
    requires { from + length bytes.now < 2 ^ 63 }
    ensures { IsPlaced bytes.now from result }
{
    let end = from + bytes.len();
    let mut places = Vec::new(alloc);
    let mut rest = bytes;
    for number in 1..=MOST_LINES {
        let Some((line, behind)) = first_line(rest) else {
            return Ok(Part {
                places,
                lines: number - 1,
            });
        };
        match place_line(line, end - rest.len()) {
            Line::Empty => {}
            Line::Command(place) => match places.push(place) {
                Ok(()) => {}
                Err(_) => return Err(FileFault::Memory),
            },
            Line::Bad => return Err(FileFault::BadLine(number)),
        }
        rest = behind;
    }
    if rest.is_empty() {
        Ok(Part {
            places,
            lines: MOST_LINES,
        })
    } else {
        Err(FileFault::TooManyLines)
    }
}
