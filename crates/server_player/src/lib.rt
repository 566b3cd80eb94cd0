//! Plays the lines of case files whose calls are requests to a server.
#![tactic(auto)]

mod calls;
mod clock;
mod device;
mod draws;
mod gateway;
mod info;
mod opening;
mod packets;
mod pipes;
mod replies;
mod requests;
mod session;
mod stage;
mod summary;
mod wires;

pub use session::{OPENINGS, play};
