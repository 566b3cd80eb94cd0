//! Whom to give up: second chance.
//!
//! A hand goes round the frames. A held frame is passed over, a marked one loses its mark and is passed over, and the first
//! that is neither is the victim. Where a whole round meets none, the first frame that is not held is it: all marks of the
//! others went in that round, so a second one would stop there. So no walk asks a frame twice, and it asks none behind its
//! victim.
ghost use Rattle.std.specs.Prelude.{◌≡◌, ◌<◌, ℕ, length, true, false, replicate, set, IfOk, IfSome, IfNone};
ghost use Rattle.swapper.specs.Chances.{flag, at, next, IsSwept};
ghost use Rattle.swapper.specs.Meetings.{IsMet, IsWalked, Asks, or_this as first_found};

use crate::flags::{Flags, FrameFlags, Met};
use crate::marks::Marks;
use far_object::Memory;
use std::alloc::Global;
use std::marker::Model;

/// A mark for each frame, and a hand that points to one. Contracts see the marks as a list, and the hand's frame.
#[derive(Drop)]
pub struct Clock {
    marks: Marks,
    hand: u32,
}

impl Model for Clock {
    ghost use Rattle.std.specs.Prelude.{◌<◌, length};
    ghost use Rattle.swapper.specs.Chances.{ClockView};

    ghost Value = { ClockView };

    ghost view = { λ c. record { marks = c.marks; hand = c.hand } };

    ghost invariant = { λ c. c.hand < length c.marks };
}

// The frame after this one, going round.
fn following(frame: u32, count: u32) -> u32
    requires { frame < count }
    ensures is { result ≡ next count frame }
    ensures below { result < count }
{
    if frame + 1 == count { 0 } else { frame + 1 }
}

// The frame that was found first.
fn or_this(spared: Option<u32>, frame: u32) -> Option<u32>
    ensures { result ≡ first_found spared frame }
{
    match spared {
        Some(first) => Some(first),
        None => Some(frame),
    }
}

impl Clock {
    /// No marks, and the hand at frame 0. Nothing of it grows later. `Memory` comes where a growth is refused.
    pub fn open(alloc: Global, frames: u32) -> Result<Clock, Memory>
        requires { 0 < frames }
        ensures marks { IfOk result (λ c. c.marks ≡ replicate frames false) }
        ensures hand { IfOk result (λ c. c.hand ≡ 0) }
    {
        match Marks::open(alloc, frames) {
            Ok(marks) => Ok(Clock { marks, hand: 0 }),
            Err(_) => Err(Memory),
        }
    }

    // How many frames there are.
    pub(crate) fn frames(&self) -> u32
        ensures { result ≡ length self.now.marks }
    {
        self.marks.count()
    }

    // Where the hand points.
    fn hand(&self) -> u32
        ensures is { result ≡ self.now.hand }
        ensures below { result < length self.now.marks }
    {
        self.hand
    }

    // The hand goes behind the frame.
    fn stop_behind(&mut self, frame: u32)
        requires { frame < length self.old.marks }
        ensures hand { self.new.hand ≡ next (length self.old.marks) frame }
        ensures marks { self.new.marks ≡ self.old.marks }
    {
        self.hand = following(frame, self.marks.count());
    }

    /// Marks the frame: the hand passes it over once.
    pub fn mark(&mut self, frame: usize)
        requires { frame < length self.old.marks }
        ensures marks { self.new.marks ≡ set self.old.marks frame true }
        ensures hand { self.new.hand ≡ self.old.hand }
    {
        let _count = self.marks.count();
        self.marks.set(frame as u32);
    }

    /// The hand goes to the frame: hands that go round the same frames at the same time should begin apart.
    pub fn point_to(&mut self, frame: u32)
        requires { frame < length self.old.marks }
        ensures hand { self.new.hand ≡ frame }
        ensures marks { self.new.marks ≡ self.old.marks }
    {
        self.hand = frame;
    }

    // Asks one frame, and takes its mark if it is not held.
    fn meet<S, A: FrameFlags<S>>(&mut self, asked: &A, state: &mut S, frame: u32) -> Met
        requires count { A.count asked.now ≡ length self.old.marks }
        requires here { frame < length self.old.marks }
        ensures met { IsMet (A.may_hold asked.now) (A.may_touch asked.now) frame self.old.marks self.new.marks result }
        ensures goes { A.goes frame state.old state.new }
        ensures hand { self.new.hand ≡ self.old.hand }
    {
        if asked.is_held(state, frame) {
            return Met::Held;
        }
        let touched = asked.is_touched(frame);
        if self.marks.is_marked(frame) || touched {
            self.marks.clear(frame);
            return Met::Marked;
        }
        Met::Free
    }

    /// Walks to the victim, and asks a frame only where the hand reaches it: the victim and the marks are as if all frames
    /// had been asked first.
    pub(crate) fn walk<S, A: FrameFlags<S>>(&mut self, asked: &A, state: &mut S) -> Option<u32>
        requires count { A.count asked.now ≡ length self.old.marks }
        ensures walked { (n : ℕ)
            × IsWalked (A.may_hold asked.now) (A.may_touch asked.now) self.old.marks self.old.hand n self.new.marks self.new.hand result
            × Asks A.goes (length self.old.marks) self.old.hand n state.old state.new }
        ensures below { IfSome result (λ v. v < length self.new.marks) }
    {
        let count = self.frames();
        let mut frame = self.hand();
        let mut spared = None;
        for _k in 0..count {
            match self.meet(asked, state, frame) {
                Met::Held => {}
                Met::Marked => {
                    spared = or_this(spared, frame);
                }
                Met::Free => {
                    self.stop_behind(frame);
                    return Some(frame);
                }
            }
            frame = following(frame, count);
        }
        if let Some(frame) = spared {
            self.stop_behind(frame);
        }
        spared
    }

    /// The victim by these flags, one for each frame: the first frame from the hand on that is neither held nor marked;
    /// where there is none the first that is not held; and none where all are held, and then nothing changes. The marks of
    /// the frames that were passed go, those of held frames stay, and the hand goes behind the victim.
    pub fn sweep(&mut self, held: &[bool]) -> Option<usize>
        requires { length held.now ≡ length self.old.marks }
        ensures swept { IsSwept (λ k. flag held.now (at (length self.old.marks) self.old.hand k)) (λ k. false)
            self.old.marks self.old.hand self.new.marks self.new.hand result }
        ensures below { IfSome result (λ v. v < length self.new.marks) }
        ensures still { IfNone result (self.new ≡ self.old) }
    {
        let _hand = self.hand();
        match self.walk(&Flags { held }, &mut ()) {
            Some(victim) => Some(victim as usize),
            None => None,
        }
    }
}
