//! How a worker goes over the lines of a case.

use crate::calls::make;
use crate::held_value::hold;
use crate::replies::{Said, Stop};
use crate::stage::{Stage, nobody};
use case_files::Line;
use far_map::{Calls, Value, Work};
use std::alloc::Global;
use std::sync::Wait;
use std::sync::atomic::Ordering;

/// Where a worker is.
#[derive(Clone, Copy, Debug, PartialEq, Eq)]
pub struct Walk {
    pub worker: u32,
    /// The place of the line behind the last that was played.
    pub at: usize,
    /// How many numbers the worker has put by `turns`.
    pub puts: u32,
}

impl Walk {
    /// A worker who has played nothing.
    pub fn new(worker: u32) -> Walk {
        Walk {
            worker,
            at: 1,
            puts: 0,
        }
    }

    /// The next line of the worker, once its turn has come.
    pub fn next<'c>(&mut self, stage: &Stage<'c>) -> Option<(usize, &'c Line)> {
        let (at, line) = stage.next_of(self.worker, self.at)?;
        self.at = at.saturating_add(1);
        if stage.waits(line, at) {
            stage.gathers(line, at);
            Some((at, line))
        } else {
            None
        }
    }
}

/// Makes the call of a line, once more where a growth was refused to it, and keeps what it said.
pub fn play_line<V: Value, S: Calls<V>, R: Wait>(
    rt: &R,
    alloc: Global,
    stage: &Stage<'_>,
    me: &mut S,
    walk: &mut Walk,
    at: usize,
    line: &Line,
) {
    if stage.named(line).is_none() {
        return stage.keep(rt, at, nobody(), None);
    }
    let first = make(rt, alloc, stage, me, walk, line);
    let again = if stage.is_again(line, &first) {
        Some(make(rt, alloc, stage, me, walk, line))
    } else {
        None
    };
    stage.keep(rt, at, first, again);
}

/// Plays the lines of a worker up to the next border.
pub fn play_lines<V: Value, S: Calls<V>, R: Wait>(
    rt: &R,
    alloc: Global,
    stage: &Stage<'_>,
    me: &mut S,
    walk: &mut Walk,
) {
    for _ in 0..stage.lines.len() {
        let Some((at, line)) = walk.next(stage) else {
            break;
        };
        if line.call() == "hold" {
            hold(rt, alloc, stage, me, walk, at, line);
        } else {
            play_line(rt, alloc, stage, me, walk, at, line);
        }
    }
}

impl<V: Value> Work<V> for Stage<'_> {
    type Out = ();

    fn work<S: Calls<V>, R: Wait>(&self, rt: &R, alloc: Global, worker: u32, me: &mut S) {
        self.has_begun.store(true, Ordering::SeqCst);
        let mut walk = Walk::new(worker);
        play_lines(rt, alloc, self, me, &mut walk);
    }
}
