//! A map of keys and values over far memory, which the threads of a program share.
//!
//! Keys are texts of at most 65,535 bytes. Values are texts, blobs, or of any other type that is a `Value`.
//! All pairs of a bucket together have at most 2^24 bytes. What is in use is kept in frames in memory, and
//! everything else on devices. A program never sees these moves.
//!
//! # Where to begin
//!
//! 1. Implement `Work`: what each worker does. A worker is handed a session, and makes its calls through
//!    `Calls`.
//! 2. Make `Settings`: how many buckets and frames there are, and how long a bucket's object may be.
//! 3. Hand both to `run`, with one device for each lane. It opens the map, has the workers work, and closes
//!    it. It returns what the workers returned, with all pairs.
//!
//! `run_bundled`, `run_through` and `run_apart` do the same, and differ in what they return at the end.
//! `run_renewed` goes on in a fresh map before version numbers run out.
//!
//! A call of a session fails with `MapRefusal`, and a run with `MapFault`.
//!
//! # One put, from here to the table
//!
//! 1. `run` (`map_run.rt`) opens the table, the queue of retired words and the evictor, and picks their names
//!    in types.
//! 2. Each worker works (`single_term.rt`) on its own thread (`workers.rt`), next to the evictor's thread
//!    (`evictor.rt`).
//! 3. The worker calls `put` of `Calls` (`calls.rt`). Its session (`session.rt`) makes one call of the table
//!    (`change_request.rt`).
//! 4. If that needs room, room is made and the call is tried again (`changes.rt`, `room.rt`).
//! 5. After the call, the retired word that it left is reclaimed (`upkeep.rt`), and the call is counted
//!    (`stats.rt`).
//! 6. When all workers have returned, `run` closes the map (`close.rt`).
//!
//! `with` and `contains` read a value in its frame (`reads.rt`).
#![tactic(auto)]

mod all_pairs;
mod bytes;
mod calls;
mod change_request;
mod changes;
mod close;
mod evictor;
mod fault;
mod held_value;
mod load;
mod map;
mod map_run;
mod opening;
mod pending_session;
mod placement;
mod reads;
mod refusal;
mod removal;
mod renewable_work;
mod renewal;
mod room;
mod run_end;
mod session;
mod settings;
mod several_keys;
mod single_term;
mod stats;
mod texts;
mod update;
mod upkeep;
mod values;
mod work;
mod workers;

pub use calls::Calls;
pub use far_blob::Blob;
pub use far_object::Text;
pub use fault::MapFault;
pub use hash_table::{BucketState, Removal, Stopped, TakesPairs, Traffic};
pub use map_run::{run, run_apart, run_bundled, run_through};
pub use refusal::{Lack, MapRefusal};
pub use renewable_work::{After, LoadReport, RenewableWork};
pub use renewal::{Renewals, run_renewed};
pub use session::Session;
pub use settings::{Setting, Settings};
pub use stats::Stats;
pub use texts::text;
pub use update::Updated;
pub use values::Value;
pub use work::Work;
