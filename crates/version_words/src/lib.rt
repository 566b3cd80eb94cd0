//! A row of words that threads share, with the log of what happened to them: a word for each bucket, the counter of names
//! and the counter of passes.
#![tactic(auto)]

mod change;
mod entry;
mod fault;
mod gather_fault;
mod holder;
mod laws;
mod mark;
mod name;
mod naming;
mod pass;
mod rule;
mod shut_right;
mod sizes;
mod spare;
mod tally;
mod words;

pub use change::{Change, Probe};
pub use fault::{EnterFault, Moved, NameFault};
pub use gather_fault::GatherFault;
pub use holder::PassHolder;
pub use laws::{changes_fit, contents_stay, empty_holds, same_history, seen_answers, seen_stay};
pub use mark::Mark;
pub use name::Name;
pub use naming::Naming;
pub use pass::Pass;
pub use sizes::{Honesty, Sizes};
pub use spare::Spare;
pub use words::{Installed, Opened, Words};
