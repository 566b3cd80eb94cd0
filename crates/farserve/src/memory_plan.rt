//! How the server's memory is divided.
//!
//! # Frames
//!
//! There is a frame for each bucket, and for each old version that may wait for reclamation, so no change
//! ever lacks one. Only the bound on bytes decides which objects stay in memory. There are a third more
//! frames, because the map's evictor swaps objects out when fewer than a quarter of all frames are free.
//!
//! # Bytes
//!
//! The parts are taken in this order:
//!
//! - what the two programs take without a map and without clients;
//! - the clients' part;
//! - what the workers work with;
//! - buckets and frames;
//! - objects in frames: four fifths of the rest. malloc loses the last fifth by rounding and between its free
//!   pieces.
//!
//! # Buckets
//!
//! If `--buckets` is not given and objects move to devices, a third of what is left is for buckets and
//! frames. Objects on devices have buckets too. If all objects stay in memory, each bucket that is not needed
//! leaves less for values. So there is one for each 512 bytes.
ghost use Rattle.std.specs.Prelude.{◌≤◌, ◌+◌, ◌*◌, IfSome};

/// Bytes of the server's program without a map: its code, its stacks, and what it reads ahead.
const PROGRAM: u64 = 5 << 20;

/// Bytes of the gateway without clients.
const GATEWAY: u64 = 4 << 20;

/// The least bytes of the clients' part.
const LEAST_CLIENTS: u64 = 8 << 20;

/// The most bytes of the reply to one request, and of the replies that wait for one client.
const MOST_REPLY: u64 = 64 << 20;

/// How many of the longest values a worker holds at once while it changes one: in its request, and in a
/// bucket before and after.
const VALUES: u64 = 4;

/// The most bytes of a request that does not take turns, if each worker may hold a value.
const LARGE: u32 = 65_536;

/// Bytes of a worker, and of the sweep: its buffers, and what malloc keeps for its thread.
const WORKER: u64 = 1 << 20;

/// Bytes of a bucket, whatever it holds: its word, and its bit in each of the map's tables.
const BUCKET: u64 = 9;

/// Bytes of a frame without its object: the frame, and what the sweep notes about it. In addition each
/// session has a bit for it.
const FRAME: u64 = 66;

/// Bytes of memory for an object in a file: its place there, and its bucket as its label. Each bucket may
/// have one.
const FAR: u64 = 65;

/// Bytes of memory for an object in a store: its length, its digest and its bucket.
const STORED: u64 = 95;

/// Bytes of all devices over a store: what is read and written at once.
const LINKS: u64 = 1 << 20;

/// The least bytes for objects in frames.
const LEAST: u64 = 1 << 20;

/// The most frames of a map.
const MOST_FRAMES: u64 = 4_194_304;

/// The most buckets that are chosen here. Even with a third more frames than buckets a map is within its
/// limits.
const MOST_CHOSEN: u64 = 3_000_000;

/// Bytes of memory for each bucket that is chosen here, if no device takes objects.
const NEAR: u64 = 512;

/// Old versions that wait for the evictor: 256 in its queue, and 320 that it keeps.
const SPARES: u64 = 576;

/// Frames that a session may take in addition to those of the buckets. Of these 64 are of old versions,
/// one is its own, and one is for the object that it is about to install.
const SESSION: u64 = 66;

/// The most memory that is tried to find out how much would do, in MiB.
const MOST_MEBIBYTES: u64 = 1 << 20;

/// How often this number is halved until it is 1.
const HALVINGS: u32 = 20;

/// How the memory is divided: how many buckets and frames there are, and how many bytes each part has.
#[derive(Clone, Copy)]
pub struct Sizes {
    pub buckets: u32,
    pub frames: u32,
    /// The most bytes of the objects in frames.
    pub bytes: u64,
    /// Bytes of what clients make the server keep: half in the gateway, half in the workers.
    pub clients: u64,
    /// The most bytes of the reply to one request, and of the replies that wait for one client.
    pub reply: u32,
    /// Requests of more bytes are answered one at a time. 0 if all are.
    pub large: u32,
}

/// Where objects without a frame are stored.
#[derive(Clone, Copy, Debug, PartialEq, Eq)]
pub enum Tier {
    /// Nowhere: all objects stay in frames.
    Nowhere,
    /// In scratch files.
    Files,
    /// In a far store.
    Store,
}

/// Bytes of a bucket with its frames and with its object on a device, which takes `far` bytes.
fn each_of(far: u64) -> u64
    requires { far ≤ STORED }
    ensures { 1 ≤ result }
{
    BUCKET + FRAME + FRAME / 3 + far
}

/// How many buckets there are for this much memory, if `--buckets` is not given. They are enough for small
/// values, and take little compared with larger ones.
fn buckets_for(memory: u64, tier: Tier) -> u64
    ensures { result ≤ MOST_CHOSEN }
{
    let buckets = match tier {
        Tier::Nowhere => memory / NEAR,
        Tier::Files => memory / 3 / each_of(FAR),
        Tier::Store => memory / 3 / each_of(STORED),
    };
    buckets.clamp(1, MOST_CHOSEN)
}

/// Bytes of the clients' part: an eighth of the memory, and 8 MiB at least.
fn clients_for(memory: u64) -> u64 {
    (memory / 8).max(LEAST_CLIENTS)
}

/// The most bytes of a reply: a quarter of the gateway's half of the clients' part, and two of the longest
/// values at least. So the longest value has room in a reply, also after others. It is never more than 64
/// MiB.
fn reply_for(clients: u64, value: u32) -> u32 {
    let two = u64::from(value).saturating_mul(2);
    (clients / 8).max(two).min(MOST_REPLY) as u32
}

/// Bytes that the workers work with, and the most bytes of a request that does not take turns.
///
/// Each worker may hold one value while it reads or replies it, and one of them what a large request takes.
/// If that is more than an eighth of the memory, one worker at a time answers a request.
fn work_for(memory: u64, value: u32, workers: u32) -> (u64, u32) {
    let value = u64::from(value);
    let of_all = value.saturating_mul(u64::from(workers).saturating_add(VALUES));
    if of_all <= memory / 8 {
        (of_all, LARGE)
    } else {
        (value.saturating_mul(VALUES), 0)
    }
}

/// Bytes of memory for what is on devices, with one object for each bucket.
fn far_of(tier: Tier, buckets: u64) -> u64
    requires { buckets ≤ MOST_FRAMES }
    ensures { result ≤ 1_000_000_000 }
{
    match tier {
        Tier::Nowhere => 0,
        Tier::Files => FAR * buckets,
        Tier::Store => LINKS + STORED * buckets,
    }
}

/// Divides this many bytes of memory.
///
/// `buckets` is how many are asked for, and none lets this function choose. There are at most as many as
/// there are frames for. `workers` is the number of workers. `value` and `request` are the most bytes of a
/// value and of a request.
///
/// None is returned if too little is left for objects, or if half of the clients' part can't hold the longest
/// request.
pub fn divide(
    memory: u64,
    buckets: Option<u32>,
    workers: u32,
    tier: Tier,
    value: u32,
    request: u32,
) -> Option<Sizes>
    // Clients, buckets, frames and objects get no more than the memory.
    ensures within { IfSome result (λ sizes. sizes.bytes + sizes.clients + BUCKET * sizes.buckets + FRAME * sizes.frames ≤ memory) }
    // Half of the clients' part can hold the longest request.
    ensures held { IfSome result (λ sizes. 2 * request ≤ sizes.clients) }
    // There are frames for all buckets, all old versions that may wait, and what each worker and the sweep
    // may hold.
    ensures enough { IfSome result (λ sizes. sizes.buckets + SPARES + SESSION * (workers + 1) ≤ sizes.frames) }
    // A map may have this many frames.
    ensures few { IfSome result (λ sizes. sizes.frames ≤ MOST_FRAMES) }
{
    let sessions = u64::from(workers) + 1;
    let waiting = SPARES + SESSION * sessions;
    let clients = clients_for(memory);
    if u64::from(request) * 2 > clients {
        return None;
    }
    let (work, large) = work_for(memory, value, workers);
    let left = memory
        .checked_sub(PROGRAM + GATEWAY + WORKER * sessions)?
        .checked_sub(clients)?
        .checked_sub(work)?;
    let asked = match buckets {
        Some(buckets) => u64::from(buckets),
        None => buckets_for(left, tier),
    };
    let buckets = asked.min(MOST_FRAMES.checked_sub(waiting)?);
    let needed = buckets + waiting;
    let frames = (needed + needed / 3 + 1).min(MOST_FRAMES);
    let marks = frames.saturating_mul(sessions + 1) / 8;
    let kept = BUCKET * buckets + FRAME * frames + far_of(tier, buckets) + marks;
    let bytes = left.checked_sub(kept)? / 5 * 4;
    if bytes < LEAST {
        return None;
    }
    Some(Sizes {
        buckets: buckets as u32,
        frames: frames as u32,
        bytes,
        clients,
        reply: reply_for(clients, value),
        large,
    })
}

/// How many MiB of memory would do: `divide` takes this many, and refuses 1 MiB less. None if 1 TiB is too
/// little.
pub fn least_memory(
    buckets: Option<u32>,
    workers: u32,
    tier: Tier,
    value: u32,
    request: u32,
) -> Option<u64> {
    // `little` MiB are too little, and `enough` are enough.
    let (mut little, mut enough) = (0u64, MOST_MEBIBYTES);
    let _ = divide(enough << 20, buckets, workers, tier, value, request)?;
    for _ in 0..HALVINGS {
        let middle = little.saturating_add(enough) / 2;
        if middle == little {
            break;
        }
        if divide(middle << 20, buckets, workers, tier, value, request).is_some() {
            enough = middle;
        } else {
            little = middle;
        }
    }
    Some(enough)
}
