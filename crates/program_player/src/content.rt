//! What a file of numbered lines has.

use std::alloc::AllocError;

/// Puts the line of this number behind the file: every fifth is empty, and the others say each another command.
pub fn add_numbered(file: &mut Vec<u8>, number: u64) -> Result<(), AllocError> {
    if number.is_multiple_of(5) {
        file.push(b'\n')?;
        return Ok(());
    }
    file.extend_from_slice(b"put ")?;
    for shift in [12, 8, 4, 0] {
        file.push(b'a' + ((number >> shift) & 15) as u8)?;
    }
    file.extend_from_slice(b" value\n")
}
