//! Texts for keys and values.
ghost use Rattle.std.specs.Prelude.{◌≡◌, ◌≤◌, ◌^◌, length, IfOk, ◌↔◌, Err};

use crate::refusal::MapRefusal;
use far_object::{Text, TextFault};
use std::alloc::Global;

/// Returns the text of these bytes, for a key or a value. The bytes are copied.
///
/// Errors: `TooLong` exactly if there are more than 65,535 bytes, before any memory is asked for. `Memory` if
/// the allocation of the copy failed.
pub fn text(alloc: Global, bytes: &[u8]) -> Result<Text, MapRefusal>
    ensures text { IfOk result (λ t. t ≡ bytes.now) }
    ensures long { (result ≡ Err MapRefusal.TooLong) ↔ (2 ^ 16 ≤ length bytes.now) }
{
    match Text::new(alloc, bytes) {
        Ok(text) => Ok(text),
        Err(TextFault::TooLong) => Err(MapRefusal::TooLong),
        Err(TextFault::Memory) => Err(MapRefusal::Memory),
    }
}
