//! Plays the cases of `tests/cases/row`: rows of words, frames and lanes.
#![tactic(auto)]

mod frames;
mod holdings;
mod lanes;
mod replies;
mod rows;
mod words;

use case_files::Playing;
use std::alloc::Global;
use std::random::RandomSource;
use std::sync::Wait;
use std::thread::Threads;

/// The calls that a case of these layers begins with.
pub const OPENINGS: &[&str] = &["frames", "lanes", "row", "vouched"];

/// Plays a case from its opening to its end.
pub fn play<R>(rt: &R, alloc: Global, playing: &mut Playing<'_>)
where
    R: RandomSource + Threads + Wait + Sync,
{
    let Some(opening) = playing.next() else {
        return;
    };
    match opening.call() {
        "frames" => frames::play(rt, alloc, opening, playing),
        "lanes" => lanes::play(rt, alloc, opening, playing),
        "row" => words::play(rt, alloc, opening, playing),
        "vouched" => words::play_vouched(alloc, opening, playing),
        _ => replies::mistaken(opening, playing),
    }
}
