//! Cases, and the reading of a file of them.

use crate::fault::CaseFault;
use crate::line::Line;
use crate::reader::Reader;
use std::alloc::Global;

/// Calls that are made one after another, and begin with nothing open.
#[derive(Drop)]
pub struct Case {
    pub name: Vec<u8>,
    /// Where it begins in its file, counted from 1.
    pub number: u32,
    pub lines: Vec<Line>,
}

/// The cases of a file.
///
/// The fault names the first line that can't be read. `BadLine::Memory` comes where a growth was refused.
pub fn read_cases(alloc: Global, file: &[u8]) -> Result<Vec<Case>, CaseFault> {
    let mut reader = Reader::new(alloc);
    let mut number = 0u32;
    for line in file.split(|byte| *byte == b'\n') {
        number = number.saturating_add(1);
        if let Err(bad) = reader.read(number, line) {
            return Err(CaseFault { line: number, bad });
        }
    }
    match reader.end() {
        Ok(cases) => Ok(cases),
        Err(bad) => Err(CaseFault { line: number, bad }),
    }
}
