//! A run of several command files, each by a worker with a thread of its own, on one map that they share.
//!
//! # One command, from its file to its line
//!
//! `run.rt` hands the files to the map as work (`worker.rt`): a worker asks the gate, runs the command by its session
//! (`command.rt`), and tells the gate. At the end the lines are written, and behind them what the map held (`finish.rt`).
#![tactic(auto)]

mod command;
mod fault;
mod finish;
mod gate;
mod run;
mod work_fault;
mod worker;

pub use fault::ThreadedFault;
pub use gate::{Gate, OpenGate};
pub use run::run_files;
