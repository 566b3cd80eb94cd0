//! Case files: lines that each call something and say what the reply has to be. docs/FORMATS.md has their grammar.
#![tactic(auto)]

mod case;
mod fault;
mod line;
mod player;
mod reader;
mod spelling;
mod words;

pub use case::{Case, read_cases};
pub use fault::{BadLine, CaseFault};
pub use line::{Line, MOST_TIMES};
pub use player::{Difference, Playing};
pub use spelling::{push_spelled, spelled};
