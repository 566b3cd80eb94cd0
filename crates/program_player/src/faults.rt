//! The texts of faults.

use crate::desk::Desk;
use crate::mistake::Mistake;
use case_files::Line;
use command_file::FileFault;
use far_driver::{LineRefusal, RunFault};
use plain_run::PlainFault;

const NO_FAULT: Mistake = Mistake::Call("there is no such fault");

/// The number at this place of the line.
fn number(line: &Line, place: usize) -> Result<u32, Mistake> {
    match line.number_at(place) {
        Some(value) => Ok(u32::try_from(value).unwrap_or(u32::MAX)),
        None => Err(Mistake::Call("a number stands behind the fault")),
    }
}

fn plain_fault(line: &Line) -> Result<PlainFault, Mistake> {
    let name = line.word(2).unwrap_or(b"");
    if name == b"BadLine".as_slice() {
        Ok(PlainFault::File(FileFault::BadLine(number(line, 3)?)))
    } else if name == b"AsksTable".as_slice() {
        Ok(PlainFault::AsksTable(number(line, 3)?))
    } else if name == b"Memory".as_slice() {
        Ok(PlainFault::Memory)
    } else if name == b"Write".as_slice() {
        Ok(PlainFault::Write)
    } else if name == b"Contents".as_slice() {
        Ok(PlainFault::Contents)
    } else {
        Err(NO_FAULT)
    }
}

/// The refusal of this name.
pub fn refusal(name: &[u8]) -> Option<LineRefusal> {
    let all: [(&[u8], LineRefusal); 8] = [
        (b"Memory", LineRefusal::Memory),
        (b"TooLong", LineRefusal::TooLong),
        (b"NamesSpent", LineRefusal::NamesSpent),
        (b"LimboFull", LineRefusal::LimboFull),
        (b"Device", LineRefusal::Device),
        (b"Damaged", LineRefusal::Damaged),
        (b"Full", LineRefusal::Full),
        (b"HeldAlready", LineRefusal::HeldAlready),
    ];
    for (one, refusal) in all {
        if one == name {
            return Some(refusal);
        }
    }
    None
}

/// The fault of a run that has a number.
fn numbered_fault(line: &Line) -> Result<RunFault, Mistake> {
    let name = line.word(2).unwrap_or(b"");
    if name == b"BadConfig".as_slice() {
        Ok(RunFault::BadConfig(number(line, 3)?))
    } else if name == b"BadLine".as_slice() {
        Ok(RunFault::BadLine(number(line, 3)?, number(line, 4)?))
    } else if name == b"TooManyLines".as_slice() {
        Ok(RunFault::TooManyLines(number(line, 3)?))
    } else if name == b"Read".as_slice() {
        Ok(RunFault::Read(number(line, 3)?))
    } else {
        Err(NO_FAULT)
    }
}

fn run_fault(line: &Line) -> Result<RunFault, Mistake> {
    let name = line.word(2).unwrap_or(b"");
    let all: [(&[u8], RunFault); 5] = [
        (b"Memory", RunFault::Memory),
        (b"Device", RunFault::Device),
        (b"Passes", RunFault::Passes),
        (b"Gate", RunFault::Gate),
        (b"Write", RunFault::Write),
    ];
    for (one, fault) in all {
        if one == name {
            return Ok(fault);
        }
    }
    if name == b"Contents".as_slice() {
        return match refusal(line.word(3).unwrap_or(b"")) {
            Some(refusal) => Ok(RunFault::Contents(refusal)),
            None => Err(NO_FAULT),
        };
    }
    numbered_fault(line)
}

impl Desk {
    /// `fault_text run FAULT ..`, `fault_text plain FAULT ..`
    pub fn fault_text(&self, line: &Line) -> Result<String, Mistake> {
        let of = line.word(1).unwrap_or(b"");
        if of == b"run".as_slice() {
            let fault = run_fault(line)?;
            Ok(format!(in self.alloc; "{fault}")?)
        } else if of == b"plain".as_slice() {
            let fault = plain_fault(line)?;
            Ok(format!(in self.alloc; "{fault}")?)
        } else {
            Err(NO_FAULT)
        }
    }
}
