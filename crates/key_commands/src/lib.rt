//! Commands on one key, as pure functions of the value that the key has.
#![tactic(auto)]

mod answer;
mod dispatch;
mod edits;
mod expiry;
mod float_increment;
mod increment;
mod key_command;
mod output;
mod range;
mod reads;
mod setting;
mod value;

pub use dispatch::{apply, is_blind};
pub use key_command::{Effect, KeyCommand, on_one_key};
