//! Shows whether bytes that a device returns are those that were written: by their length and a keyed
//! digest.
#![tactic(auto)]

mod digest;

pub use digest::{are_same, digest_of};
