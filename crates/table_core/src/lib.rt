//! The map of one thread, the events of a table's log, the rules of a lawful log, and a machine that keeps them.
#![tactic(auto)]

mod contents;
mod effect;
mod event;
mod fault;
mod laws;
mod limits;
mod machine;
mod operation;
mod pairs;
pub mod word;

pub use event::Event;
pub use fault::{CoreFault, Rule};
pub use laws::{buckets_make_map, contents_answer, contents_are_map, last_write_stands, maps_rise};
pub use limits::{LAST_NAME, LAST_PASS, Limits, MOST_BUCKETS};
pub use machine::Machine;
pub use operation::Operation;
pub use pairs::Pairs;
