//! Why an event may not follow.
ghost use Rattle.std.specs.Prelude.{◌≡◌};

use far_object::Memory;
use thiserror::Error;

/// The rule that an event breaks, or want of memory. Where it breaks more than one, the first is named in this order:
/// its pass, its number, the naming of its word, that its word is newer, its contents. Want of memory comes last, only
/// where the event may follow.
#[derive(Clone, Copy, Debug, PartialEq, Eq, Error)]
pub enum Rule {
    /// The name isn't the next one, or none is left.
    #[error("the name is used or none is left")]
    NameUsed,
    /// The installed name isn't above the bucket's.
    #[error("the name is not newer than the bucket's")]
    NotNewer,
    /// The bucket is none of the table's, the name is unknown or of another bucket, a key is of another bucket, pairs are
    /// out of order, or the contents aren't what the operation makes of those that stand there.
    #[error("the contents do not fit")]
    WrongContents,
    /// The pass isn't the next one or none is left, or the pass of a call has not entered.
    #[error("the pass is wrong")]
    WrongPass,
    /// A growth was refused, for an event that may follow.
    #[error("memory")]
    Memory,
}

/// A refused event: its place in a replayed log, counted from 1, or 0 at a call; and the first rule that it breaks.
#[derive(Clone, Copy, Debug, PartialEq, Eq, Error)]
#[error("event {place}: {rule}")]
pub struct CoreFault {
    pub place: u64,
    pub rule: Rule,
}

/// Want of memory.
impl From<Memory> for Rule {
    ghost use Rattle.table_core.specs.declared.fault.Rule.{Rule};

    ghost from_gives = { λ _ rule. rule ≡ Rule.Memory };

    fn from(_refused: Memory) -> Rule {
        Rule::Memory
    }
}

/// Want of memory in a call.
impl From<Memory> for CoreFault {
    ghost use Rattle.table_core.specs.declared.fault.Rule.{Rule};

    ghost from_gives = { λ _ fault. fault ≡ record { place = 0; rule = Rule.Memory } };

    fn from(_refused: Memory) -> CoreFault {
        CoreFault::from(Rule::Memory)
    }
}

/// The fault of a call.
impl From<Rule> for CoreFault {
    ghost from_gives = { λ rule fault. fault ≡ record { place = 0; rule = rule } };

    fn from(rule: Rule) -> CoreFault {
        CoreFault { place: 0, rule }
    }
}
