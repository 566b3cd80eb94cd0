//! Why a request is replied an error, and the text of that. Its first word is its kind, and the rest is for
//! people. Each is short enough for the room that the request loop makes before a request.
ghost use Rattle.std.specs.Prelude.{◌≡◌};
ghost use Rattle.farcalls.specs.Answers.{device_text, unkept_text, refusal_text, error_text};

use crate::reason::FarReason;
use far_map::{Lack, MapRefusal};

/// Why a request is replied an error.
#[derive(Clone, Copy, PartialEq, Eq)]
pub(crate) enum Unanswered {
    /// The map refused the call.
    Refused(MapRefusal),
    /// The bytes in frames are at their bound, and no object can be swapped out.
    NoRoom,
    KeyTooLong,
    ValueTooLong,
    /// The reply to MGET would have more than 64 MiB.
    ReplyTooLong,
    /// The change was made, and there is no memory for the reply.
    Lost,
}

/// The error if a device failed, for this reason.
fn device_text(known: FarReason) -> &'static [u8]
    ensures { result.now ≡ device_text known }
{
    match known {
        FarReason::Unknown => b"DEVICE a device failed",
        FarReason::NoSpace => b"DEVICE no space left on device",
        FarReason::InputOutput => b"DEVICE input/output error",
        FarReason::PermissionDenied => b"DEVICE permission denied",
        FarReason::ReadOnly => b"DEVICE read-only file system",
        FarReason::Missing => b"DEVICE no such file or directory",
        FarReason::Damaged => b"DEVICE an object is damaged",
        FarReason::Other => b"DEVICE other error",
    }
}

/// The error if no device takes an object. If there is no device, the memory is full.
fn unkept_text(is_far: bool, known: FarReason) -> &'static [u8]
    ensures { result.now ≡ unkept_text is_far known }
{
    if is_far {
        device_text(known)
    } else {
        b"FULL the memory is full; give the map more, or a folder"
    }
}

/// The error for a refusal of the map.
fn refusal_text(is_far: bool, known: FarReason, why: MapRefusal) -> &'static [u8]
    ensures { result.now ≡ refusal_text is_far known why }
{
    match why {
        MapRefusal::TooLong => b"TOOLONG the pairs of the key's bucket would have more than 16 MiB",
        MapRefusal::Full(Lack::Frame) => b"FULL all frames are in use; give the map more memory",
        MapRefusal::Full(Lack::Spare) => b"FULL too many old versions are still read, try again",
        MapRefusal::NamesSpent => b"SPENT the map is being renewed, try again",
        MapRefusal::Device => unkept_text(is_far, known),
        MapRefusal::Damaged => b"DAMAGED a device gave back damaged bytes",
        MapRefusal::Memory => b"MEMORY memory was refused",
    }
}

/// The error that is replied. `known` is why a device failed last.
pub(crate) fn error_text(is_far: bool, known: FarReason, why: Unanswered) -> &'static [u8]
    ensures { result.now ≡ error_text is_far known why }
{
    match why {
        Unanswered::Refused(why) => refusal_text(is_far, known, why),
        Unanswered::NoRoom => unkept_text(is_far, known),
        Unanswered::KeyTooLong => b"KEYTOOLONG a key has at most 65535 bytes",
        Unanswered::ValueTooLong => b"VALUETOOLONG a value has at most 16 MiB",
        Unanswered::ReplyTooLong =>
            b"REPLYTOOLONG the values have more than 64 MiB; ask for fewer keys at once",
        Unanswered::Lost => b"LOST the change was made, but memory was refused for its answer",
    }
}
