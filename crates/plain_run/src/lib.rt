//! The plain run: one file's commands, one after another, on a table of one thread. Runs of the table that threads share
//! are compared with it, so it is as plain as can be.
#![tactic(auto)]

mod fault;
mod run;
mod table;

pub use fault::PlainFault;
pub use run::run_file;
