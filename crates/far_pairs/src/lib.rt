//! Many pairs in one piece of memory, and lent in the order of their keys.
//!
//! # Why not a list of keys and values
//!
//! The pairs of a whole table, each with a key and a value of its own, are two pieces of memory a pair, which are asked for
//! one by one, lie anywhere, and are given back one by one. They are asked for so as to be written in order and let go. A
//! bundle keeps the bytes as which the pairs were written already, the pairs of one object behind those of another, and an
//! order of pairs is a list of places there.
#![tactic(auto)]

mod bundle;
mod head;
mod lent_pair;
mod order;
mod ranges;
mod run;

pub use bundle::Bundle;
pub use lent_pair::LentPair;
pub use order::in_key_order;
