//! What a server is opened with.

use far_map::Settings;
use resp::Limits;
use server_commands::Options;
use stored_keys::DigestKeys;

/// The most bytes of values and replies, and how many databases there are.
#[derive(Clone, Copy)]
pub struct Bounds {
    /// The most bytes of a value. A command that would make a longer one replies an error.
    pub longest_value: u32,
    /// The most bytes of the reply to one request. MGET and EXEC keep to it: before each key or command they
    /// check that one more value fits. A reply may exceed it by what is no value, for example by a page of
    /// SCAN after other replies of an EXEC.
    pub longest_reply: u32,
    /// The number of the last database, from 0.
    pub last_database: u8,
}

/// What a server is opened with.
#[derive(Clone, Copy)]
pub struct ServerSettings {
    /// The map: its buckets, frames, version numbers, and the bound of bytes in frames.
    pub map: Settings,
    /// Whether the map's devices keep anything. If not, all objects stay in frames.
    pub is_far: bool,
    /// How many workers there are. Each is a thread, and has a pipe of requests and one of replies.
    pub workers: u32,
    /// The limits of a request. One beyond them is a protocol error, and ends its connection.
    pub requests: Limits,
    /// The limits of values, replies and databases.
    pub bounds: Bounds,
    /// The most bytes of memory of the requests that wait for EXEC on one connection.
    pub longest_queue: u32,
    /// Requests of more bytes than this are answered one at a time, by one of all workers. The bytes are
    /// counted from the request's beginning to the end of what has come, so later requests may count too. At
    /// 0 all requests take turns.
    pub large: u32,
    /// The most bytes of objects on devices, which INFO reports. None if there is no limit. The devices keep
    /// to it, not this crate.
    pub far_limit: Option<u64>,
    /// The SHA-256 digest of the password. None if no password is needed.
    pub password: Option<[u8; 32]>,
    /// The keys of the digest that each stored key has, in all maps of the server.
    pub digest_keys: DigestKeys,
    /// The seed of RANDOMKEY. It should be another number at each start.
    pub seed: u64,
    /// What CONFIG GET replies. If it says that keys are evicted, the sweep evicts them.
    pub options: Options,
}
