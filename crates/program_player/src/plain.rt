//! The run of one file on the table of one thread.

use crate::desk::Desk;
use crate::mistake::Mistake;
use crate::readers::Given;
use crate::reply::{reply_of, text};
use crate::settings::small;
use crate::writers::{Limits, Output};
use case_files::Line;
use plain_run::{PlainFault, run_file};
use std::alloc::Global;

/// The table's settings.
#[derive(Clone, Copy)]
pub struct PlainTable {
    pub buckets: u32,
    pub limit: u32,
}

pub fn table_of(line: &Line) -> Result<PlainTable, Mistake> {
    Ok(PlainTable {
        buckets: small(line, "buckets", 4)?,
        limit: small(line, "limit", 4_096)?,
    })
}

/// Runs the file, and says how that ended.
pub fn run_plain(
    alloc: Global,
    table: PlainTable,
    given: Given<'_>,
    out: &mut Output,
) -> Result<Result<(), PlainFault>, Mistake> {
    let PlainTable { buckets, limit } = table;
    if buckets == 0 || buckets > 65_536 || limit > 1_048_576 {
        return Err(Mistake::Call("a plain table has 1 to 65,536 buckets and objects of 1,048,576"));
    }
    let ended = run_file(alloc, buckets, limit, &mut given.reader(), out);
    let is_refused = ended == Err(PlainFault::Memory) || ended == Err(PlainFault::Contents);
    if is_refused || out.tells_memory() {
        return Err(Mistake::Memory);
    }
    Ok(ended)
}

/// How the run ended, as a text.
pub fn status_of(alloc: Global, ended: Result<(), PlainFault>) -> Result<String, Mistake> {
    match ended {
        Ok(()) => text(alloc, "ok"),
        Err(fault) => Ok(format!(in alloc; "{fault}")?),
    }
}

/// What the run of these bytes writes, which has to end well.
pub fn plainly(alloc: Global, table: PlainTable, file: &[u8]) -> Result<Vec<u8>, Mistake> {
    let mut out = Output::new(alloc, Limits::none());
    match run_plain(alloc, table, Given::of(file), &mut out)? {
        Ok(()) => Ok(out.kept),
        Err(_) => Err(Mistake::Call("the plain run refuses the file")),
    }
}

/// The reply of a run of the file on such a table.
pub fn reply_at(
    alloc: Global,
    table: PlainTable,
    given: Given<'_>,
    limits: Limits,
) -> Result<String, Mistake> {
    let mut out = Output::new(alloc, limits);
    let ended = run_plain(alloc, table, given, &mut out)?;
    let status = status_of(alloc, ended)?;
    reply_of(alloc, status.as_str(), out.kept.as_slice())
}

/// The same on the table that the line names.
pub fn reply_of_plain(
    alloc: Global,
    line: &Line,
    given: Given<'_>,
    limits: Limits,
) -> Result<String, Mistake> {
    reply_at(alloc, table_of(line)?, given, limits)
}

impl Desk {
    /// `plain buckets=N limit=N`
    pub fn plain(&self, line: &Line) -> Result<String, Mistake> {
        reply_of_plain(self.alloc, line, self.given_one(line)?, self.limits)
    }
}
