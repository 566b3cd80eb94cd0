//! The two formats of an object, and the header of the second.
//!
//! A header is 16 bytes: the marker `ffffffff`, which begins no object since it is above the most
//! pairs that an object may count, the bucket as 4 bytes and the name as 8, all big-endian.
ghost use Rattle.std.specs.Prelude.{◌≡◌};
ghost use Rattle.far_object.specs.Formats.{header_of, start_of};

use crate::fault::ObjectFault;

/// How an object is written out.
#[derive(Clone, Copy, Debug, PartialEq, Eq)]
pub enum Format {
    /// The object alone.
    One,
    /// A header with the bucket and the name, and then the object.
    Two,
}

/// What every header begins with.
const MARKER: [u8; 4] = [0xff, 0xff, 0xff, 0xff];

/// How many bytes a header has.
pub const HEADER_LEN: usize = 16;

/// The header of this bucket and name.
pub fn header(bucket: u32, name: u64) -> [u8; HEADER_LEN]
    ensures { result ≡ header_of bucket name }
{
    let [b0, b1, b2, b3] = bucket.to_be_bytes();
    let [n0, n1, n2, n3, n4, n5, n6, n7] = name.to_be_bytes();
    [
        0xff, 0xff, 0xff, 0xff, b0, b1, b2, b3, n0, n1, n2, n3, n4, n5, n6, n7,
    ]
}

/// Where the object begins in bytes of either format, or why the header is not that of this bucket
/// and name.
pub fn object_start(bytes: &[u8], bucket: u32, name: u64) -> Result<usize, ObjectFault>
    ensures { result ≡ start_of bucket name bytes.now }
{
    if !bytes.starts_with(&MARKER) {
        Ok(0)
    } else if bytes.starts_with(&header(bucket, name)) {
        Ok(HEADER_LEN)
    } else if bytes.len() < HEADER_LEN {
        Err(ObjectFault::Short)
    } else {
        Err(ObjectFault::Misplaced)
    }
}
