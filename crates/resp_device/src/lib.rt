//! A device whose objects lie in a store that speaks the protocol of Redis, over a pair of pipes.
#![tactic(auto)]

mod device;
mod exchange;
mod failures;
mod fault;
mod index;
mod laws;
mod link;
mod object_record;
mod opening;
mod pipes;
mod requests;

pub use device::RespDevice;
pub use fault::{StoreFailure, StoreOpenFault};
pub use laws::keys_are_apart;
pub use pipes::Pipes;
