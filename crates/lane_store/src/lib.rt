//! Devices behind locks, and receipts for the objects that they keep.
#![tactic(auto)]

mod fault;
mod lane;
mod receipt;
mod store;

pub use fault::LaneFault;
pub use lane::Lane;
pub use receipt::Receipt;
pub use store::LaneStore;
