//! Why pairs are not handed out.
use thiserror::Error;

/// Why a part of the pairs was not handed out.
#[derive(Clone, Copy, Debug, PartialEq, Eq, Error)]
pub enum Untaken {
    /// A growth was refused. The part is there still, and may be asked for again.
    #[error("memory")]
    Memory,
    /// The spool failed, or gave bytes that are no object. The part is gone.
    #[error("object lost")]
    Lost,
}
