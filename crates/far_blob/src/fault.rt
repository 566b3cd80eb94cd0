//! Why bytes make no blob.
use thiserror::Error;

/// Why bytes make no blob.
#[derive(Clone, Copy, Debug, PartialEq, Eq, Error)]
pub enum BlobFault {
    /// A growth was refused.
    #[error("out of memory")]
    Memory,
    /// There are more than 2^24 bytes.
    #[error("blob too long")]
    TooLong,
}
