//! A file run on the table of one thread and on the one that files share, in both formats.

use crate::desk::Desk;
use crate::mistake::Mistake;
use crate::plain::reply_of_plain;
use crate::runs::reply_of_run;
use crate::settings::config_of;
use case_files::Line;
use hash_table::Config;
use std::sync::Wait;
use std::thread::Threads;

impl Desk {
    /// `every_run`: what all of them reply, or how they differ.
    pub fn every_run<R>(&self, rt: &R, line: &Line) -> Result<String, Mistake>
    where
        R: Threads + Wait + AllocGlobal + Sync,
    {
        let alloc = self.alloc;
        let given = self.given_one(line)?;
        let plain = reply_of_plain(alloc, line, given, self.limits)?;
        let config = config_of(line)?;
        for format in [1, 2] {
            let config = Config { format, ..config };
            let shared = reply_of_run(rt, config, &[given], self.limits)?;
            if plain.as_str() != shared.as_str() {
                return Ok(format!(in alloc; "plain: {plain}\nformat {format}: {shared}")?);
            }
        }
        Ok(plain)
    }
}
