//! Why a run ended early.
ghost use Rattle.std.specs.Prelude.{◌≡◌, ℕ};
ghost use Rattle.hash_table.specs.Closes.{IsCloseFault, IsHandFault};
ghost use Rattle.far_object.specs.Encodings.{enc_text};
ghost use Rattle.far_map.specs.declared.fault.MapFault.TheVariants.{Memory as refused};
ghost use Rattle.far_map.specs.Faults.{IsLater, IsHandingFault};

use crate::settings::{Setting, setting_of};
use crate::values::Value;
use far_object::Text;
use hash_table::{CloseFault, HandFault, OpenFault, TakesPairs};
use std::alloc::AllocError;
use thiserror::Error;
use version_words::Naming;

/// Why a run failed. Its map is gone then, with all pairs.
///
/// `run_bundled` and `run_through` return a fault at the end together with what the workers returned. After
/// each other fault that is gone too.
#[derive(Clone, Copy, Debug, PartialEq, Eq, Error)]
pub enum MapFault {
    /// This setting is the first one outside its limits. Nothing was done yet.
    #[error("bad setting: {0}")]
    BadSetting(Setting),
    /// `Settings::passes` is too small: a run needs one for each worker and one more, and `run_renewed` two
    /// more. No worker has begun then. It is also returned if a worker left another session in place of the
    /// one that it was handed.
    #[error("passes spent")]
    PassesSpent,
    /// An allocation failed.
    #[error("memory")]
    Memory,
    /// A device failed when it was made empty, or at the end of the run.
    #[error("device")]
    Device,
    /// The bytes that a device returned at the end are no object of the bucket and version that they were
    /// asked for. Over an honest device it is proved that this is not returned.
    #[error("damaged")]
    Damaged,
    /// At the end, a frame or a lane did not have the version that the word of a bucket names.
    #[error("missed")]
    Missed,
    /// The taker of `run_through` took no more pairs.
    #[error("stopped")]
    Stopped,
}

impl From<AllocError> for MapFault {
    ghost use Rattle.std.specs.Prelude.{◌≡◌};

    ghost from_gives = { λ _ fault. fault ≡ refused };

    fn from(_refused: AllocError) -> MapFault {
        MapFault::Memory
    }
}

impl From<OpenFault> for MapFault {
    ghost use Rattle.std.specs.Prelude.{◌≡◌};
    ghost use Rattle.far_map.specs.Faults.{of_opening};

    ghost from_gives = { λ opened fault. fault ≡ of_opening opened };

    fn from(fault: OpenFault) -> MapFault {
        match fault {
            OpenFault::BadConfig(number) => MapFault::BadSetting(setting_of(number)),
            OpenFault::Memory => MapFault::Memory,
            OpenFault::Device => MapFault::Device,
        }
    }
}

pub(crate) fn of_closing<V: Value, J: Naming>(fault: CloseFault<Text, V, J>) -> MapFault
    ensures { (n : ℕ) → IsCloseFault enc_text V.enc J.limits n fault → IsLater J.limits.honest result }
{
    match fault {
        CloseFault::PassMissing(_) => MapFault::PassesSpent,
        CloseFault::Memory => MapFault::Memory,
        CloseFault::Device => MapFault::Device,
        CloseFault::Damaged => MapFault::Damaged,
        CloseFault::Missed => MapFault::Missed,
    }
}

pub(crate) fn of_handing<V: Value, J: Naming, T: TakesPairs<Text, V>>(
    fault: HandFault<Text, V, J>,
) -> MapFault
    ensures { (n : ℕ) (old new : T) → IsHandFault enc_text V.enc J.limits T.takes T.stops old new n fault → IsHandingFault T.takes T.stops J.limits.honest old new result }
{
    match fault {
        HandFault::Stopped => MapFault::Stopped,
        HandFault::Close(fault) => of_closing(fault),
    }
}
