//! The request loop of a server's worker: packets of many connections come in, and their requests are
//! answered in order.
//!
//! The loop has no sockets. A gateway holds these, and exchanges packets (`Kind`) with the loop. The
//! loop cuts the bytes of each connection into requests (crate `resp`), asks a `Service` for each
//! reply, and sends the replies as packets.
//!
//! - `serve_over` runs the loop over a reader and a writer, to the end of the packets.
//! - `serve` does so over any `Duplex`.
//! - `serve_on` begins where an earlier service left, and returns what the next one needs (`Holds`).
#![tactic(auto)]

mod arrivals;
mod buffers;
mod byte_streams;
mod dispatch;
mod duplex;
mod ends;
mod fault;
mod one_request;
mod packet;
mod packet_fault;
mod packet_reader;
mod packet_writer;
mod pause;
mod requests;
mod service;
mod slots;
mod wire;
mod worker_loop;

pub use byte_streams::serve_over;
pub use duplex::Duplex;
pub use ends::{PacketInput, PacketOutput};
pub use fault::LoopFault;
pub use packet::{Head, Kind};
pub use packet_fault::PacketFault;
pub use pause::{Holds, Pause};
pub use service::{Next, Service, Woken};
pub use wire::Wire;
pub use worker_loop::{serve, serve_on};
