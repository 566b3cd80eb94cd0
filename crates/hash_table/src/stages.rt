//! The stages that every call is made of. A stage takes "this word was seen" and returns "these are its
//! contents". Reading leaves the pass (the caller's identity, with what it has seen) as it is.

pub(crate) mod build;
pub(crate) mod contents;
pub(crate) mod far;
pub(crate) mod local;
pub(crate) mod publish;
pub(crate) mod seen;
pub(crate) mod settle;
