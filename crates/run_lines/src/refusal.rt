//! Why a command made no call.
ghost use Rattle.std.specs.Prelude.{◌≡◌};
ghost use Rattle.run_lines.specs.declared.refusal.LineRefusal.TheVariants.{Memory as refusal_memory};

use far_object::Memory;
use thiserror::Error;

/// Why a command was refused. Its text is the command's reply.
#[derive(Clone, Copy, Debug, PartialEq, Eq, Error)]
pub enum LineRefusal {
    /// A growth was refused.
    #[error("memory")]
    Memory,
    /// The new object would be longer than the limit.
    #[error("too long")]
    TooLong,
    /// No name is left.
    #[error("names spent")]
    NamesSpent,
    /// The caller has no room for a spare.
    #[error("limbo full")]
    LimboFull,
    /// A device failed.
    #[error("device")]
    Device,
    /// What a device gave is no object.
    #[error("damaged")]
    Damaged,
    /// No frame became free.
    #[error("full")]
    Full,
    /// A key is held, so no other one can be.
    #[error("held already")]
    HeldAlready,
}

impl From<Memory> for LineRefusal {
    ghost from_gives = { λ _ refusal. refusal ≡ refusal_memory };

    fn from(_refused: Memory) -> LineRefusal {
        LineRefusal::Memory
    }
}

impl LineRefusal {
    ghost use Rattle.run_lines.specs.Replies.{refusal_text};

    /// The text of the reply.
    pub fn text(self) -> &'static [u8]
        ensures { result.now ≡ refusal_text self }
    {
        match self {
            LineRefusal::Memory => b"memory",
            LineRefusal::TooLong => b"too long",
            LineRefusal::NamesSpent => b"names spent",
            LineRefusal::LimboFull => b"limbo full",
            LineRefusal::Device => b"device",
            LineRefusal::Damaged => b"damaged",
            LineRefusal::Full => b"full",
            LineRefusal::HeldAlready => b"held already",
        }
    }
}
