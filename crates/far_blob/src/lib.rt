//! Long values: `Blob`, bytes as keys and values of far memory, as `far_object::Text` is, but up to 16 MiB.
#![tactic(auto)]

mod blob;
mod fault;

pub use blob::{Blob, MOST_BYTES};
pub use fault::BlobFault;
