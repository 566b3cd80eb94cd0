//! Plays the case files of the layer `tables`: one hash table with its callers, their scopes, spares and marks, the queue of
//! spares, the evictor, and the clock. tests/cases/tables/README.md lists the openings and the calls.
//!
//! A call's `requires` is checked before the call, and what doesn't meet it is told as a mistake: no case can do harm.
#![tactic(auto)]

mod block;
mod calls;
mod clock;
mod close;
mod crowd;
mod datum;
mod devices;
mod eviction;
mod many;
mod opening;
mod replies;
mod scope;
mod seats;
mod settings;
mod site;
mod stop;
mod user;
mod world;

use case_files::Playing;
use far_device::{CannedDevice, FakeDevice, LyingDevice};
use far_object::Text;
use std::alloc::Global;
use std::sync::Wait;
use std::thread::Threads;

/// The calls that a case may begin with.
pub const OPENINGS: &[&str] = &["table", "queue", "clock"];

/// Whether the call opens something, and so ends what was open before.
pub(crate) fn is_opening(call: &str) -> bool {
    OPENINGS.contains(&call)
}

/// Plays a case to its end, or to its first difference.
pub fn play<R: Threads + Wait + Sync>(rt: &R, alloc: Global, playing: &mut Playing<'_>) {
    for _ in 0..playing.case().lines.len() {
        let Some(line) = playing.next() else {
            return;
        };
        let call = line.call();
        let device = line.named("device").unwrap_or(b"memory");
        if call == "clock" {
            clock::play(alloc, playing, line);
        } else if call == "queue" {
            opening::open::<u64, FakeDevice, R>(rt, alloc, playing, line);
        } else if call != "table" {
            let _ = playing.tell(line, stop::mistake("nothing is open"));
        } else if device == b"lying".as_slice() {
            opening::open::<Text, LyingDevice<FakeDevice>, R>(rt, alloc, playing, line);
        } else if device == b"canned".as_slice() {
            opening::open::<Text, CannedDevice<FakeDevice>, R>(rt, alloc, playing, line);
        } else if device == b"broken".as_slice() {
            opening::open::<Text, devices::BrokenDevice, R>(rt, alloc, playing, line);
        } else {
            opening::open::<Text, FakeDevice, R>(rt, alloc, playing, line);
        }
    }
}
