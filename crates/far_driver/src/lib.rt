//! The program: its arguments, its files, the run, the texts of faults and the statuses.
#![tactic(auto)]

mod arguments;
mod fault;
mod input_files;
mod lanes;
mod program;
mod run;
mod sources;
mod status;

pub use arguments::{Arguments, read_arguments, read_words};
pub use fault::RunFault;
pub use input_files::read_files;
pub use lanes::open_lanes;
pub use program::run_program;
pub use run::run_files;
pub use run_lines::LineRefusal;
pub use sources::{Source, open_sources};
pub use status::ProgramFault;
pub use threaded_run::{Gate, OpenGate};
