//! Why passes were not gathered at one front.

use crate::mark::Mark;
use crate::naming::Naming;
use far_object::FarObject;
use std::fmt::{Debug, Display, Formatter};
use std::{error, fmt};

/// Why not all passes are at one front.
#[derive(Drop)]
pub enum GatherFault<K: FarObject, V: FarObject, J: Naming> {
    /// At the mark's front more passes were drawn than were handed in.
    Missing(Mark<K, V, J>),
    /// The room to tell the passes apart was refused.
    Memory,
}

impl<K: FarObject, V: FarObject, J: Naming> Debug for GatherFault<K, V, J> {
    fn fmt<W: fmt::Write>(&self, f: &mut Formatter<W>) -> fmt::Result {
        match self {
            GatherFault::Missing(_) => f.write_str("Missing"),
            GatherFault::Memory => f.write_str("Memory"),
        }
    }
}

impl<K: FarObject, V: FarObject, J: Naming> Display for GatherFault<K, V, J> {
    fn fmt<W: fmt::Write>(&self, f: &mut Formatter<W>) -> fmt::Result {
        match self {
            GatherFault::Missing(_) => f.write_str("a pass is missing"),
            GatherFault::Memory => f.write_str("out of memory"),
        }
    }
}

impl<K: FarObject, V: FarObject, J: Naming> error::Error for GatherFault<K, V, J> {}
