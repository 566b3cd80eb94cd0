//! A concurrent hash table that may be larger than its memory.
//!
//! Threads share a `FarTable`. All pairs of a bucket are one immutable object, which is stored in a frame (a
//! slot of local memory) or on a device. A change builds a new object, and installs it by one
//! compare-and-swap on the bucket's word.
//!
//! # Words of the code
//!
//! These are short names for known things. `docs/GLOSSARY.md` has them all.
//!
//! - *name*: a version number, which is drawn once for each new object
//! - *word* of a bucket: 64 bits that hold a name and the place of the object
//! - *pass*: a caller's identity, with the count of its calls
//! - *front*: the prefix of the log of all events that a pass has seen
//! - *mark*: evidence of such a prefix, which can be handed to another caller
//! - *spare*: a retired word, that is, the permission to free what it points to
//! - *limbo*: the list of retired words that wait with a caller
//! - *lane*: a device with its lock
//!
//! # One put, file by file
//!
//! 1. `changes.rt` has the public call. It looks at the bucket's word (`stages/seen.rt`).
//! 2. It reads the object under that word (`stages/local.rt`, `stages/far.rt`).
//! 3. It makes the new object (`stages/build.rt`).
//! 4. It publishes that under a new name (`stages/publish.rt`).
//!
//! Gets take the first two steps (`gets.rt`, `scope.rt`). Moves between frames and devices take all except
//! the third (`moves.rt`). `state.rt` only looks. `close.rt`, `close_through.rt` and `drain.rt` end a
//! table; `all_pairs.rt` reads its buckets.
#![tactic(auto, using(crate::proofs::Fronts::goes_trans))]

mod all_pairs;
mod caller;
mod changes;
mod close;
mod close_through;
mod config;
mod drain;
mod gets;
mod limbo;
mod moves;
mod opening;
mod prefetch;
mod recycled_frame;
mod refusal;
mod removal;
mod round;
mod scope;
mod stages;
mod state;
mod table;
mod traffic;

pub use caller::Caller;
pub use close::CloseFault;
pub use close_through::{HandFault, Stopped, TakesPairs};
pub use config::Config;
pub use drain::Drained;
pub use opening::{Opening, Vouched};
pub use prefetch::MOST_PREFETCHED;
pub use refusal::{OpenFault, ReclaimFault, Refusal};
pub use removal::Removal;
pub use round::Round;
pub use scope::TableScope;
pub use state::BucketState;
pub use table::FarTable;
pub use traffic::Traffic;
