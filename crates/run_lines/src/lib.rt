//! The lines of a run: the texts of replies, the pairs of the contents, and what is written.
#![tactic(auto)]

mod lines;
mod output;
mod pair;
mod refusal;
mod reply;

pub use lines::PairLines;
pub use output::{write_contents, write_files};
pub use pair::Pair;
pub use refusal::LineRefusal;
pub use reply::{push_line, reply_text};
