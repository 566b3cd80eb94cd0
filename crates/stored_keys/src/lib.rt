//! Under which key of the map a client's key is stored.
//!
//! # The naive scheme, and why it fails
//!
//! Stored as they are, keys of one form are neighbours in the table, whose hash is 31 * h + byte; and anybody can compute 100,000 keys of
//! one bucket. So behind a client's key stand the number of its database and a digest of both under secret keys: the hash goes on from
//! the key over the digest, and spreads as the digest does.
#![tactic(auto)]

ghost use Rattle.std.specs.Prelude.{◌≡◌, ℕ, List, Some, OnOk};
ghost use Rattle.stored_keys.specs.declared.Keyspace.{Keyspace as any_keyspace};
ghost use Rattle.stored_keys.specs.StoredKeys.{digest, digest_bytes, stored_key, client_key, database_of};

use std::alloc::AllocError;
use std::hash::{DefaultHasher, Hasher};

#[cfg(test)]
mod tests;

/// The most bytes of a client's key, whose stored one has 65,535, as many as a text.
pub const LONGEST_KEY: usize = 65_528;

/// What a stored key has behind the client's.
const ADDED: usize = 7;

/// How many bytes of a digest are stored. Six are the least over which the table's hash takes each value of 32 bits.
const DIGEST_BYTES: usize = 6;

/// What digests are made under: drawn, and kept secret, as long as any key that is stored under them.
#[derive(Clone, Copy)]
pub struct DigestKeys {
    pub first: u64,
    pub second: u64,
}

/// Where a client's keys are stored: in a database, under digest keys. Keys of two databases are different keys of the map.
#[derive(Clone, Copy)]
pub struct Keyspace {
    pub digest_keys: DigestKeys,
    /// The number of the database, from 0.
    pub database: u8,
}

/// SipHash-1-3 over the digest keys and then the bytes.
fn digest_of(digest_keys: DigestKeys, bytes: &[u8]) -> u64
    ensures { result ≡ digest digest_keys bytes.now }
{
    let mut hasher = DefaultHasher::new();
    hasher.write(&digest_keys.first.to_le_bytes());
    hasher.write(&digest_keys.second.to_le_bytes());
    hasher.write(bytes);
    hasher.finish()
}

/// Puts the stored key of a client's key in the place of what `stored` has. After want of memory that may be anything.
pub fn put_stored_key(
    keyspace: Keyspace,
    key: &[u8],
    stored: &mut Vec<u8>,
) -> Result<(), AllocError>
    ensures { OnOk result (stored.new.items ≡ stored_key keyspace key.now) }
{
    stored.clear();
    stored.reserve(key.len().saturating_add(ADDED))?;
    stored.extend_from_slice(key)?;
    stored.push(keyspace.database)?;
    let digest = digest_of(keyspace.digest_keys, stored.as_slice()).to_be_bytes();
    stored.extend_from_slice(&digest[..DIGEST_BYTES])
}

/// The client's key of a stored one, whatever the digest keys and the database are.
pub fn client_key(stored: &[u8]) -> &[u8]
    ensures bytes { result.now ≡ client_key stored.now }
    ensures inverse { (keyspace : any_keyspace) → (key : List ℕ) → stored.now ≡ stored_key keyspace key → result.now ≡ key }
{
    &stored[..stored.len().saturating_sub(ADDED)]
}

/// The database of a stored key, whatever the digest keys are. None if it is the empty text, which is no stored key.
pub fn database_of(stored: &[u8]) -> Option<u8>
    ensures is { result ≡ database_of stored.now }
    ensures inverse { (keyspace : any_keyspace) → (key : List ℕ) → stored.now ≡ stored_key keyspace key → result ≡ Some keyspace.database }
{
    stored.get(stored.len().saturating_sub(ADDED)).copied()
}
