//! A value that is held from one line to another.

use crate::replies::{Said, Stop, plain};
use crate::stage::Stage;
use crate::walk::{Walk, play_line};
use crate::words::{bytes_said, key_at};
use case_files::Line;
use far_map::{Calls, Value};
use std::alloc::Global;
use std::sync::Wait;

/// One try to hold the value of the line's key.
fn try_hold<V: Value, S: Calls<V>, R: Wait>(
    rt: &R,
    alloc: Global,
    me: &mut S,
    line: &Line,
) -> Result<Option<S::Held>, Stop> {
    let key = key_at(alloc, line, 1)?;
    Ok(me.hold(rt, &key)?)
}

/// Plays the lines of the worker while a value is held: those up to `let_go`, whose place it answers, or up to the next border.
fn play_while_held<V: Value, S: Calls<V>, R: Wait>(
    rt: &R,
    alloc: Global,
    stage: &Stage<'_>,
    me: &mut S,
    walk: &mut Walk,
    held: &S::Held,
) -> Option<usize> {
    for _ in 0..stage.lines.len() {
        let (at, line) = walk.next(stage)?;
        if line.call() == "let_go" {
            return Some(at);
        }
        if line.call() == "bytes_of" {
            let said = bytes_said(alloc, me.bytes_of(held));
            stage.keep(rt, at, said, None);
        } else {
            play_line(rt, alloc, stage, me, walk, at, line);
        }
    }
    None
}

/// Plays the lines while the value is held, and lets it go.
fn play_held<V: Value, S: Calls<V>, R: Wait>(
    rt: &R,
    alloc: Global,
    stage: &Stage<'_>,
    me: &mut S,
    walk: &mut Walk,
    held: S::Held,
) {
    let behind = play_while_held(rt, alloc, stage, me, walk, &held);
    me.let_go(held);
    if let Some(at) = behind {
        stage.keep(rt, at, plain(alloc, ""), None);
    }
}

/// Holds the value of the line's key, plays the lines meanwhile, and lets it go. Where a growth was refused it is tried once more.
pub fn hold<V: Value, S: Calls<V>, R: Wait>(
    rt: &R,
    alloc: Global,
    stage: &Stage<'_>,
    me: &mut S,
    walk: &mut Walk,
    at: usize,
    line: &Line,
) {
    let stop = match try_hold(rt, alloc, me, line) {
        Ok(Some(held)) => {
            stage.keep(rt, at, plain(alloc, "held"), None);
            return play_held(rt, alloc, stage, me, walk, held);
        }
        Ok(None) => return stage.keep(rt, at, plain(alloc, "none"), None),
        Err(stop) => stop,
    };
    let first: Said = Err(stop);
    if !stage.is_again(line, &first) {
        return stage.keep(rt, at, first, None);
    }
    match try_hold(rt, alloc, me, line) {
        Ok(Some(held)) => {
            stage.keep(rt, at, first, Some(plain(alloc, "held")));
            play_held(rt, alloc, stage, me, walk, held);
        }
        Ok(None) => stage.keep(rt, at, first, Some(plain(alloc, "none"))),
        Err(stop) => stage.keep(rt, at, first, Some(Err(stop))),
    }
}
