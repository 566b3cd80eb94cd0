//! Digests, and the comparison of what was read with what was written.
ghost use Rattle.std.specs.Prelude.{◌≡◌, IsTrue, length};
ghost use Rattle.std.specs.Bool.{OnTrue};
ghost use Rattle.digests.specs.Collisions.{nothing_collided};
ghost use Rattle.digests.specs.Digests.{digest_under};

use std::hash::{BuildHasher, Hasher, RandomState};
use std::snapshot::Snapshot;

/// The digest of the bytes: SipHash-1-3 with these keys, 64 bits.
pub fn digest_of(keys: &RandomState, bytes: &[u8]) -> u64
    ensures { result ≡ digest_under keys.now bytes.now }
{
    let mut hasher = keys.build_hasher();
    hasher.write(bytes);
    hasher.finish()
}

/// Whether the bytes have this length and this digest.
fn are_alike(keys: &RandomState, bytes: &[u8], len: u32, digest: u64) -> bool
    ensures { OnTrue result ((length bytes.now ≡ len) × (digest_under keys.now bytes.now ≡ digest)) }
{
    bytes.len() == len as usize && digest_of(keys, bytes) == digest
}

/// Whether the bytes have this length and this digest, which are those of what was written.
///
/// If so, the bytes are what was written, unless a digest collided. `written` takes no memory: only
/// proofs read it.
pub fn are_same(
    keys: &RandomState,
    bytes: &[u8],
    len: u32,
    digest: u64,
    written: &Snapshot<Vec<u8>>,
) -> bool
    requires long { len ≡ length written.now.value.items }
    requires digested { digest ≡ digest_under keys.now written.now.value.items }
    ensures alike { OnTrue result
        ((length bytes.now ≡ len) × (digest_under keys.now bytes.now ≡ digest)) }
    ensures same { IsTrue nothing_collided → OnTrue result (bytes.now ≡ written.now.value.items) }
{
    let _ = written;
    are_alike(keys, bytes, len, digest)
}
