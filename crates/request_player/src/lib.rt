//! Plays the cases of requests: what is read from a request, what a command on one key or to the server replies, and which
//! packets a worker writes. tests/cases/requests/README.md names the calls.
#![tactic(auto)]

mod facts;
mod key;
mod key_request;
mod manners;
mod mistake;
mod packet;
mod parser;
mod reply;
mod request;
mod run;
mod server;
mod server_request;
mod token;
mod worker;
mod world;

pub use world::{OPENINGS, play};
