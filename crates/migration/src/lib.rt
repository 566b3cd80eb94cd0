//! Pairs on their way from one table to the next.
//!
//! # Why not one list
//!
//! A table is taken apart while all of it lies in memory and on its devices, so what is taken out must not need the same room
//! once more. An object that lay in memory stays there as its bytes, which its table lets go as they are added. One that lay on
//! a device is written to a device, the spool, so a table that is much larger than the memory passes through.
#![tactic(auto)]

mod fault;
mod migration;
mod spool;

pub use fault::Untaken;
pub use migration::Migration;
