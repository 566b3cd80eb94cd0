//! A cache server over pipes. It speaks the protocol of Redis, and its cache may be larger than its memory.
//!
//! `run_server` is the entry. The crate's README follows one request through the modules.
#![tactic(auto)]

mod all_keys;
mod bound;
mod change;
mod command;
mod connection;
mod connections;
mod context;
mod deadlines;
mod eviction;
mod info;
mod key_counts;
mod login;
mod news;
mod notes;
mod one_key;
mod one_reply;
mod pipes;
mod queue;
mod random_key;
mod refusal;
mod renewal;
mod request;
mod reserve;
mod room;
mod run;
mod selection;
mod server;
mod settings;
mod several_keys;
mod slow_log;
mod states;
mod statistics;
mod sweep;
mod transaction;
mod turns;
mod usage;
mod worker;
mod worker_end;

pub use pipes::{Pipes, PipesFault};
pub use request_loop::{LoopFault, PacketFault, PacketInput, PacketOutput};
pub use run::run_server;
pub use server_commands::DeviceReason;
pub use settings::{Bounds, ServerSettings};
pub use usage::FarUsage;
pub use worker_end::{ServeFault, WorkerEnd};
