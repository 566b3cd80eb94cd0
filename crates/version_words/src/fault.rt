//! Why a call on a row is refused.

use crate::mark::Mark;
use crate::naming::Naming;
use far_object::FarObject;
use std::fmt::{Debug, Display, Formatter};
use std::{error, fmt};
use thiserror::Error;

/// Another word stands in the bucket by now.
#[derive(Clone, Copy, Debug, PartialEq, Eq, Error)]
#[error("another word stands in the bucket")]
pub struct Moved;

/// Why no name was drawn.
#[derive(Clone, Copy, Debug, PartialEq, Eq, Error)]
pub enum NameFault {
    /// The last name was drawn.
    #[error("no name is left")]
    NamesSpent,
    /// Another name was drawn meanwhile. Another try may draw the next one.
    #[error("another name was drawn meanwhile")]
    Moved,
}

/// Why no pass was drawn. The mark's front says it.
#[derive(Drop)]
pub enum EnterFault<K: FarObject, V: FarObject, J: Naming> {
    /// The last pass was drawn.
    PassesSpent(Mark<K, V, J>),
    /// Another pass was drawn meanwhile. Another try may draw the next one.
    Moved(Mark<K, V, J>),
}

impl<K: FarObject, V: FarObject, J: Naming> Debug for EnterFault<K, V, J> {
    fn fmt<W: fmt::Write>(&self, f: &mut Formatter<W>) -> fmt::Result {
        match self {
            EnterFault::PassesSpent(_) => f.write_str("PassesSpent"),
            EnterFault::Moved(_) => f.write_str("Moved"),
        }
    }
}

impl<K: FarObject, V: FarObject, J: Naming> Display for EnterFault<K, V, J> {
    fn fmt<W: fmt::Write>(&self, f: &mut Formatter<W>) -> fmt::Result {
        match self {
            EnterFault::PassesSpent(_) => f.write_str("no pass is left"),
            EnterFault::Moved(_) => f.write_str("another pass was drawn meanwhile"),
        }
    }
}

impl<K: FarObject, V: FarObject, J: Naming> error::Error for EnterFault<K, V, J> {}
