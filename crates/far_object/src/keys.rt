//! Which bucket a key belongs to.
ghost use Rattle.std.specs.Prelude.{◌≡◌, ◌^◌, ◌<◌, length};
ghost use Rattle.far_object.specs.Buckets.{bucket, hashed};

use crate::traits::FarObject;

/// What a hash is below.
const HASH_MODULUS: u64 = 1 << 32;

/// The hash behind one byte more.
fn after_byte(hash: u32, byte: u8) -> u32
    ensures { result ≡ hashed hash byte }
{
    let next = u64::from(hash) * 31 + u64::from(byte);
    (next % HASH_MODULUS) as u32
}

/// The hash behind four bytes more. It waits for the hash before them at one multiplication, and not at four.
fn after_four(hash: u32, first: u8, second: u8, third: u8, fourth: u8) -> u32
    ensures { result ≡ hashed (hashed (hashed (hashed hash first) second) third) fourth }
{
    let next = u64::from(hash) * 923_521
        + u64::from(first) * 29_791
        + u64::from(second) * 961
        + u64::from(third) * 31
        + u64::from(fourth);
    (next % HASH_MODULUS) as u32
}

/// The bucket of a key, of so many, of which there must be one.
///
/// It is the key's hash modulo the number of buckets. The hash starts at 0, and for each byte of
/// the key's encoding becomes 31 times itself and that byte, modulo 2^32.
pub fn bucket_of<K: FarObject>(key: &K, buckets: u32) -> u32
    requires { 0 < buckets }
    ensures { result ≡ bucket K.enc buckets key.now }
{
    let count = key.len();
    let mut hash: u32 = 0;
    for four in 0..count / 4 {
        let at = 4 * four;
        hash = after_four(
            hash,
            key.byte_at(at),
            key.byte_at(at + 1),
            key.byte_at(at + 2),
            key.byte_at(at + 3),
        );
    }
    for i in count - count % 4..count {
        hash = after_byte(hash, key.byte_at(i));
    }
    hash % buckets
}

/// How many bytes the value is written as.
pub fn size<T: FarObject>(value: &T) -> usize
    ensures is { result ≡ length (T.enc value.now) }
    ensures few { result < 2 ^ 32 }
    ensures admitted { T.admits value.now }
{
    value.admitted();
    value.len()
}
