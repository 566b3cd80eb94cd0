//! Plays cases of far maps: an opening line gives a map's settings, its workers and its devices, and each line behind it is one call of
//! a worker's session. tests/cases/maps/README.md has the calls.
//!
//! # Where a line is played
//!
//! A map hands its sessions to a program of its own (`far_map::Work`, and `RenewableWork` where it is renewed). `stage.rt` is that program:
//! each worker walks over the lines of the case, waits until the lines before its own have been played, and plays them
//! (`walk.rt`, `calls.rt`). What the calls reply is kept, and told in the order of the lines once the run is over (`player.rt`).
#![tactic(auto)]

mod calls;
mod changes;
mod device;
mod held_value;
mod looks;
mod numbers;
mod opening;
mod pairs;
mod player;
mod reads;
mod renewals;
mod replies;
mod rounds;
mod run;
mod series;
mod stage;
mod taker;
mod tries;
mod visits;
mod walk;
mod words;

pub use player::play;

/// The calls that a case of maps may begin with.
pub const OPENINGS: &[&str] = &[
    "map",
    "map_apart",
    "map_bundled",
    "map_through",
    "map_renewed",
];
