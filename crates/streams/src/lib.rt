//! Files and pipes whose bytes contracts can name.
//!
//! The standard library states nothing of what a `File` reads and writes. A `StreamReader` and a
//! `StreamWriter` have a file or another reader or writer, a number, and a count of bytes. So contracts can
//! speak of the bytes of the stream with this number, from a place on.
#![tactic(auto)]

mod reader;
mod writer;

pub use reader::StreamReader;
pub use writer::StreamWriter;
