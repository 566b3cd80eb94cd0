//! A case, from its first line to its last.

use crate::replies::{Said, Stop, told};
use crate::run::{Ran, run_case};
use case_files::{Line, Playing};
use std::alloc::Global;
use std::rt::{Clock, Files};
use std::sync::Wait;
use std::thread::Threads;

/// A run, or one whose opening said why there was none.
fn run_or_not<R: Threads + Wait + Sync>(
    rt: &R,
    alloc: Global,
    first: &Line,
    lines: &[Line],
) -> Ran {
    match run_case(rt, alloc, first, lines) {
        Ok(ran) => ran,
        Err(stop) => Ran {
            opening: Err(stop),
            told: Vec::new(alloc),
            renewals: Vec::new(alloc),
            close: Err(Stop::Mistake("the map was not opened")),
        },
    }
}

/// Tells what the line at this place said.
fn tell_line(alloc: Global, playing: &mut Playing<'_>, ran: &mut Ran, at: usize, line: &Line) {
    let Some(place) = ran.told.iter().position(|told| told.at == at) else {
        let nobody: Said = Err(Stop::Mistake("no worker made this call"));
        let _ = playing.tell(line, told(alloc, nobody));
        return;
    };
    if place >= ran.told.len() {
        return;
    }
    let said = ran.told.swap_remove(place);
    if playing.tell(line, told(alloc, said.first)) {
        if let Some(again) = said.again {
            let _ = playing.tell(line, told(alloc, again));
        }
    }
}

/// Tells what the lines behind the opening said.
fn tell_lines<R: Threads + Wait + Sync>(
    rt: &R,
    alloc: Global,
    playing: &mut Playing<'_>,
    first: &Line,
    lines: &[Line],
    ran: Ran,
) {
    let mut ran = ran;
    for at in 1..lines.len() {
        let Some(line) = playing.next() else {
            return;
        };
        if line.call() == "close" {
            let close = std::mem::replace(&mut ran.close, Err(Stop::Mistake("the map is closed")));
            if playing.tell(line, told(alloc, close)) {
                let again = run_or_not(rt, alloc, first, lines);
                let _ = playing.tell(line, told(alloc, again.close));
            }
        } else if line.call() == "renew" && !ran.renewals.is_empty() {
            let said = ran.renewals.remove(0);
            let _ = playing.tell(line, told(alloc, said));
        } else {
            tell_line(alloc, playing, &mut ran, at, line);
        }
    }
}

/// Plays a whole case. Where its opening was refused a growth, all is played once more; and so it is where its end was, of which then
/// the end alone is told.
pub fn play<R>(rt: &R, alloc: Global, playing: &mut Playing<'_>)
where
    R: Clock + Files + Threads + Wait + Sync,
{
    let lines = playing.case().lines.as_slice();
    let Some(first) = playing.next() else {
        return;
    };
    let mut ran = run_or_not(rt, alloc, first, lines);
    let opening = std::mem::replace(&mut ran.opening, Err(Stop::Mistake("the map is open")));
    if playing.tell(first, told(alloc, opening)) {
        ran = run_or_not(rt, alloc, first, lines);
        let again = std::mem::replace(&mut ran.opening, Err(Stop::Mistake("the map is open")));
        let _ = playing.tell(first, told(alloc, again));
    }
    tell_lines(rt, alloc, playing, first, lines, ran);
}
