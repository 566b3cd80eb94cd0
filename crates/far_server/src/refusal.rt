//! The replies to calls that the map refuses.
ghost use Rattle.std.specs.Prelude.{◌≡◌, ◌≢◌, true, false};
ghost use Rattle.far_map.specs.declared.refusal.MapRefusal.TheVariants as refusal;
ghost use Rattle.far_server.specs.Refusing.{IsTold, text_of, device_text, text_with, no_room};

use far_map::MapRefusal;
use server_commands::DeviceReason;

/// The reply if others changed the key at each of many tries.
pub(crate) const OVERTAKEN: &[u8] = b"ERR the key is under contention, try again";

/// The reply if a key has more bytes than one that can be stored.
pub(crate) const KEY_TOO_LONG: &[u8] = b"ERR key is too long";

/// How a refusal is reported. If the devices keep nothing, a device that takes no object means that memory is
/// full.
pub(crate) fn told_as(why: MapRefusal, is_far: bool) -> MapRefusal
    ensures told { IsTold why result }
    ensures of_memory { is_far ≡ false → result ≢ refusal.Device }
    ensures of_device { is_far ≡ true → result ≡ why }
{
    match why {
        MapRefusal::Device if !is_far => MapRefusal::Memory,
        _ => why,
    }
}

/// The reply for a refusal.
pub(crate) fn text_of(why: MapRefusal) -> &'static [u8]
    ensures { result.now ≡ text_of why }
{
    match why {
        MapRefusal::TooLong => b"ERR bucket is full",
        MapRefusal::Full(_) => b"OOM command not allowed: nothing can be swapped out",
        MapRefusal::NamesSpent => b"ERR the map is being renewed, try again",
        MapRefusal::Device => b"ERR far device failed",
        MapRefusal::Damaged => b"ERR far device gave back damaged bytes",
        MapRefusal::Memory => b"OOM command not allowed: out of memory",
    }
}

/// The reply if a device failed, for this reason.
fn device_text(reason: DeviceReason) -> &'static [u8]
    ensures { result.now ≡ device_text reason }
{
    match reason {
        DeviceReason::NoSpace => b"ERR far device failed: no space left on device",
        DeviceReason::InputOutput => b"ERR far device failed: input/output error",
        DeviceReason::PermissionDenied => b"ERR far device failed: permission denied",
        DeviceReason::ReadOnly => b"ERR far device failed: read-only file system",
        DeviceReason::Missing => b"ERR far device failed: no such file or directory",
        DeviceReason::Unreachable => b"ERR far device failed: store unreachable",
        DeviceReason::Refused => b"ERR far device failed: store replied with an error",
        DeviceReason::Lost => b"ERR far device failed: store has lost the object",
        DeviceReason::Damaged => b"ERR far device failed: damaged object",
        DeviceReason::Other => b"ERR far device failed: other error",
    }
}

/// The reply for a refusal. If a device failed, it has the reason, if that is known.
pub(crate) fn text_with(why: MapRefusal, reason: Option<DeviceReason>) -> &'static [u8]
    ensures { result.now ≡ text_with why reason }
{
    match (why, reason) {
        (MapRefusal::Device, Some(reason)) => device_text(reason),
        _ => text_of(why),
    }
}

/// The reply if memory is full, and objects can't be swapped out. If that is because a device failed, it has
/// the reason.
pub(crate) fn no_room(reason: Option<DeviceReason>) -> &'static [u8]
    ensures { result.now ≡ no_room reason }
{
    match reason {
        None => b"OOM command not allowed when used memory > 'maxmemory'.",
        Some(DeviceReason::NoSpace) =>
            b"OOM command not allowed when used memory > 'maxmemory'. Far device failed: no space left on device",
        Some(DeviceReason::InputOutput) =>
            b"OOM command not allowed when used memory > 'maxmemory'. Far device failed: input/output error",
        Some(DeviceReason::PermissionDenied) =>
            b"OOM command not allowed when used memory > 'maxmemory'. Far device failed: permission denied",
        Some(DeviceReason::ReadOnly) =>
            b"OOM command not allowed when used memory > 'maxmemory'. Far device failed: read-only file system",
        Some(DeviceReason::Missing) =>
            b"OOM command not allowed when used memory > 'maxmemory'. Far device failed: no such file or directory",
        Some(DeviceReason::Unreachable) =>
            b"OOM command not allowed when used memory > 'maxmemory'. Far device failed: store unreachable",
        Some(DeviceReason::Refused) =>
            b"OOM command not allowed when used memory > 'maxmemory'. Far device failed: store replied with an error",
        Some(DeviceReason::Lost) =>
            b"OOM command not allowed when used memory > 'maxmemory'. Far device failed: store has lost the object",
        Some(DeviceReason::Damaged) =>
            b"OOM command not allowed when used memory > 'maxmemory'. Far device failed: damaged object",
        Some(DeviceReason::Other) =>
            b"OOM command not allowed when used memory > 'maxmemory'. Far device failed: other error",
    }
}
