//! Frames in which versions lie, and scopes that keep one in its place while it is read. No call takes a lock; a claim to
//! read is tried again while other threads change the frame's word.
#![tactic(auto)]

mod bits;
mod fault;
mod frames;
pub mod laws;
mod owned_frame;
mod reserved_frame;
mod scope;
mod slot;
mod vacant;
mod version;

pub use fault::{Missed, NoFrame};
pub use frames::{Frames, MOST_FRAMES};
pub use owned_frame::Owned;
pub use reserved_frame::Reserved;
pub use scope::Scope;
pub use version::Version;
