//! The clock, with flags that are known.
ghost use Rattle.std.specs.Prelude.{◌≡◌, length};

use crate::is_opening;
use crate::stop::{Reply, Stop, told};
use case_files::{Line, Playing};
use std::alloc::Global;
use swapper::Clock;

/// More frames than a case has.
const MOST_FRAMES: u64 = 4_096;

/// A clock of so many frames.
#[derive(Drop)]
struct Hand {
    clock: Clock,
    frames: u32,
    ghost all: { length clock.marks ≡ frames },
}

impl Hand {
    fn open(alloc: Global, frames: u32) -> Result<Hand, Stop> {
        if frames == 0 {
            return Err(Stop::Mistake("a clock has frames"));
        }
        match Clock::open(alloc, frames) {
            Ok(clock) => Ok(Hand { clock, frames }),
            Err(_) => Err(Stop::Memory),
        }
    }

    fn mark(&mut self, frame: u32) -> Result<(), Stop> {
        if frame >= self.frames {
            return Err(Stop::Mistake("the clock has no such frame"));
        }
        self.clock.mark(frame as usize);
        Ok(())
    }

    fn point_to(&mut self, frame: u32) -> Result<(), Stop> {
        if frame >= self.frames {
            return Err(Stop::Mistake("the clock has no such frame"));
        }
        self.clock.point_to(frame);
        Ok(())
    }

    // The victim, where frames are held whose flags are true.
    fn sweep(&mut self, held: &[bool]) -> Result<Option<usize>, Stop> {
        if held.len() != self.frames as usize {
            return Err(Stop::Mistake("each frame has a flag"));
        }
        Ok(self.clock.sweep(held))
    }
}

/// The first and the last frame of a word `FRAME` or `FIRST-LAST`.
fn range(word: &[u8]) -> Result<(u32, u32), Stop> {
    const BAD: Stop = Stop::Mistake("a word is FRAME or FIRST-LAST");
    let Ok(text) = str::from_utf8(word) else {
        return Err(BAD);
    };
    let (first, last) = text.split_once('-').unwrap_or((text, text));
    match (first.parse::<u32>().ok(), last.parse::<u32>().ok()) {
        (Some(first), Some(last)) if last < 65_536 => Ok((first, last)),
        _ => Err(BAD),
    }
}

fn mark(hand: &mut Hand, line: &Line) -> Result<(), Stop> {
    for word in line.rest(1) {
        let (first, last) = range(word.as_slice())?;
        for frame in first..=last {
            hand.mark(frame)?;
        }
    }
    Ok(())
}

fn sweep(alloc: Global, hand: &mut Hand, line: &Line) -> Reply {
    let mut held = Vec::new(alloc);
    for _ in 0..hand.frames {
        held.push(false)?;
    }
    for word in line.rest(1) {
        let (first, last) = range(word.as_slice())?;
        for frame in first..=last {
            if let Some(flag) = held.get_mut(frame as usize) {
                *flag = true;
            }
        }
    }
    match hand.sweep(held.as_slice())? {
        Some(victim) => Ok(format!(in alloc; "{victim}")?),
        None => Ok(String::from_str(alloc, "none")?),
    }
}

fn call(alloc: Global, hand: &mut Hand, line: &Line) -> Reply {
    match line.call() {
        "mark" => mark(hand, line)?,
        "point_to" => {
            let (frame, _) = range(line.word(1).unwrap_or(&[]))?;
            hand.point_to(frame)?;
        }
        "sweep" => return sweep(alloc, hand, line),
        _ => return Err(Stop::Mistake("a clock has no such call")),
    }
    Ok(String::new(alloc))
}

fn opened(alloc: Global, line: &Line) -> Result<Hand, Stop> {
    match line.number_named("frames", 3) {
        Some(frames) if frames <= MOST_FRAMES => Hand::open(alloc, frames as u32),
        _ => Err(Stop::Mistake("a clock has at most 4,096 frames")),
    }
}

/// Opens a clock, and plays what follows.
pub fn play(alloc: Global, playing: &mut Playing<'_>, opening: &Line) {
    let mut hand = match opened(alloc, opening) {
        Ok(hand) => hand,
        Err(stop) => {
            let _ = playing.tell(opening, told(alloc, Err(stop)));
            return;
        }
    };
    if playing.tell(opening, Ok(String::new(alloc))) {
        return;
    }
    for _ in 0..playing.case().lines.len() {
        match playing.peek() {
            Some(line) if !is_opening(line.call()) => {}
            _ => return,
        }
        let Some(line) = playing.next() else {
            return;
        };
        for _ in 0..2 {
            let reply = call(alloc, &mut hand, line);
            if !playing.tell(line, told(alloc, reply)) {
                break;
            }
        }
    }
}
