//! The words of a line as the arguments of a request.

use case_files::Line;
use commands::{Arguments, Span};
use std::alloc::{AllocError, Global};

/// Bytes, and where the arguments lie in them, with a blank between two.
#[derive(Drop)]
pub(crate) struct Request {
    bytes: Vec<u8>,
    spans: Vec<Span>,
}

impl Request {
    /// The words from this place on.
    pub(crate) fn of(alloc: Global, line: &Line, from: usize) -> Result<Request, AllocError> {
        let mut request = Request {
            bytes: Vec::new(alloc),
            spans: Vec::new(alloc),
        };
        for word in line.rest(from) {
            let span = Span {
                from: request.bytes.len(),
                len: word.len(),
            };
            request.spans.push(span)?;
            request.bytes.extend_from_slice(word.as_slice())?;
            request.bytes.push(b' ')?;
        }
        Ok(request)
    }

    pub(crate) fn arguments(&self) -> Arguments<'_> {
        Arguments {
            bytes: self.bytes.as_slice(),
            spans: self.spans.as_slice(),
        }
    }
}

/// A word by its place, where it is a number with a sign.
pub(crate) fn signed_at(line: &Line, place: usize) -> Option<i64> {
    line.text_at(place)?.parse::<i64>().ok()
}
