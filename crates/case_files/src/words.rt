//! The words of a line: separated by blanks, and in quotes where they have blanks or bytes that can't be seen.

use crate::fault::BadLine;
use std::alloc::Global;

/// What the bytes so far ended in.
#[derive(Clone, Copy)]
enum State {
    /// A blank, or nothing.
    Between,
    /// A word without quotes.
    Bare,
    /// A quoted word.
    Quoted,
    /// A `\` in a quoted word.
    Escaped,
    /// A `\x`, and then its first digit.
    Hex,
    HexAnd(u8),
    /// The end of a quoted word.
    Closed,
}

/// The value of a hexadecimal digit.
fn digit(byte: u8) -> Option<u8> {
    match byte {
        b'0'..=b'9' => Some(byte.wrapping_sub(b'0')),
        b'a'..=b'f' => Some(byte.wrapping_sub(b'a').wrapping_add(10)),
        b'A'..=b'F' => Some(byte.wrapping_sub(b'A').wrapping_add(10)),
        _ => None,
    }
}

/// The byte that one behind a `\` stands for.
fn escape(byte: u8) -> Result<u8, BadLine> {
    match byte {
        b'n' => Ok(b'\n'),
        b'r' => Ok(b'\r'),
        b't' => Ok(b'\t'),
        b'\\' | b'"' => Ok(byte),
        _ => Err(BadLine::Escape),
    }
}

fn is_blank(byte: u8) -> bool {
    byte == b' ' || byte == b'\t'
}

/// The words so far.
#[derive(Drop)]
struct Words {
    alloc: Global,
    whole: Vec<Vec<u8>>,
}

impl Words {
    /// Puts the byte behind the last word.
    fn add(&mut self, byte: u8) -> Result<(), BadLine> {
        if let Some(last) = self.whole.last_mut() {
            last.push(byte)?;
        }
        Ok(())
    }

    /// Begins a word.
    fn begin(&mut self) -> Result<(), BadLine> {
        self.whole.push(Vec::new(self.alloc))?;
        Ok(())
    }

    fn between(&mut self, byte: u8) -> Result<State, BadLine> {
        if is_blank(byte) {
            return Ok(State::Between);
        }
        self.begin()?;
        if byte == b'"' {
            return Ok(State::Quoted);
        }
        self.add(byte)?;
        Ok(State::Bare)
    }

    fn bare(&mut self, byte: u8) -> Result<State, BadLine> {
        if is_blank(byte) {
            return Ok(State::Between);
        }
        if byte == b'"' {
            return Err(BadLine::Quote);
        }
        self.add(byte)?;
        Ok(State::Bare)
    }

    fn quoted(&mut self, byte: u8) -> Result<State, BadLine> {
        match byte {
            b'"' => Ok(State::Closed),
            b'\\' => Ok(State::Escaped),
            _ => {
                self.add(byte)?;
                Ok(State::Quoted)
            }
        }
    }

    fn escaped(&mut self, byte: u8) -> Result<State, BadLine> {
        if byte == b'x' {
            return Ok(State::Hex);
        }
        self.add(escape(byte)?)?;
        Ok(State::Quoted)
    }

    fn step(&mut self, state: State, byte: u8) -> Result<State, BadLine> {
        match state {
            State::Between => self.between(byte),
            State::Bare => self.bare(byte),
            State::Quoted => self.quoted(byte),
            State::Escaped => self.escaped(byte),
            State::Hex => {
                let high = digit(byte).ok_or(BadLine::Escape)?;
                Ok(State::HexAnd(high))
            }
            State::HexAnd(high) => {
                let low = digit(byte).ok_or(BadLine::Escape)?;
                self.add(high.wrapping_mul(16).wrapping_add(low))?;
                Ok(State::Quoted)
            }
            State::Closed if is_blank(byte) => Ok(State::Between),
            State::Closed => Err(BadLine::Quote),
        }
    }
}

/// The words of a line.
pub(crate) fn words_of(alloc: Global, line: &[u8]) -> Result<Vec<Vec<u8>>, BadLine> {
    let mut words = Words {
        alloc,
        whole: Vec::new(alloc),
    };
    let mut state = State::Between;
    for byte in line {
        state = words.step(state, *byte)?;
    }
    match state {
        State::Between | State::Bare | State::Closed => Ok(words.whole),
        _ => Err(BadLine::Quote),
    }
}
