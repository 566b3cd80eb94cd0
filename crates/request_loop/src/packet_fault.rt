//! Why a packet is not read or written.
use thiserror::Error;

/// Why a packet can't be read or written.
#[derive(Clone, Copy, Debug, PartialEq, Eq, Error)]
pub enum PacketFault {
    /// The reader or the writer failed.
    #[error("packets cannot be read or written")]
    Io,
    /// The packets end inside a packet.
    #[error("the packets end inside a packet")]
    Cut,
    /// A packet is of an unknown kind.
    #[error("a packet is of an unknown kind")]
    Kind,
    /// A packet has more bytes than its kind may have: 2^20 for `Data`, 64 for `Open`, 4,096 for
    /// `Note`, 8 for `Holds`, and none for the others.
    #[error("a packet is too long")]
    TooLong,
    /// An allocation failed.
    #[error("memory")]
    Memory,
    /// An earlier call failed, so this one does too.
    #[error("an earlier packet failed")]
    Failed,
}
