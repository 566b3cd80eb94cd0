//! Files of commands on a table of texts: their grammar, a parser of lines, and a bounded reader of whole files.
#![tactic(auto)]

mod command;
mod fault;
mod laws;
mod line;
mod parse;
mod part;
mod place;
mod script;
mod search;
mod side_by_side;
mod text;
mod verb;
mod whole;
mod words;

pub use command::{Command, MapCommand, TableCommand};
pub use fault::FileFault;
pub use laws::{one_command, one_meaning, one_outcome, written_is_said};
pub use script::Script;
pub use text::{FileText, read_file};
