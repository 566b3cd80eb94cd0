//! What the hand asks of the frames that it reaches.

/// What tells of frames whether they are held, and whether they were touched since they were asked last. `S` is what it
/// needs to find out.
///
/// What may be answered is said by relations, and not by functions, so that a walk has to ask each frame that it passes: it
/// can't know the answers.
pub(crate) trait FrameFlags<S> {
    ghost use Rattle.std.specs.Prelude.{ℕ, Bool, ◌<◌};

    /// How many frames there are.
    ghost count: { Self → ℕ };

    /// It may answer so of a frame.
    ghost may_hold: { Self → ℕ → Bool → Type 0 };

    ghost may_touch: { Self → ℕ → Bool → Type 0 };

    /// How the state may change where a frame is asked.
    ghost goes: { ℕ → S → S → Type 0 };

    /// An answer that it may give of a frame.
    ghost guess: { Self → ℕ → Bool };

    fn is_held(&self, state: &mut S, frame: u32) -> bool
        requires { frame < count self.now }
        ensures held { may_hold self.now frame result }
        ensures goes { goes frame state.old state.new };

    fn is_touched(&self, frame: u32) -> bool
        requires { frame < count self.now }
        ensures { may_touch self.now frame result };

    ghost guessed: { (x : Self) (f : ℕ) → may_hold x f (guess x f) };
}

/// Flags that are known, of frames that were not touched.
#[derive(Drop)]
pub(crate) struct Flags<'a> {
    pub(crate) held: &'a [bool],
}

impl<'a> FrameFlags<()> for Flags<'a> {
    ghost use Rattle.std.specs.Prelude.{◌≡◌, length, false, refl};
    ghost use Rattle.swapper.specs.Chances.{flag};

    ghost count = { λ s. length s.held.now };

    ghost may_hold = { λ s f b. b ≡ flag s.held.now f };

    ghost may_touch = { λ s f b. b ≡ false };

    ghost goes = { λ f a b. Unit {0} };

    ghost guess = { λ s f. flag s.held.now f };

    fn is_held(&self, _state: &mut (), frame: u32) -> bool {
        self.held[frame as usize]
    }

    fn is_touched(&self, _frame: u32) -> bool {
        false
    }

    ghost guessed = { λ s f. refl };
}

/// What the hand meets.
#[derive(Clone, Copy, Debug, PartialEq, Eq)]
pub(crate) enum Met {
    /// A frame that is held.
    Held,
    /// A frame that was marked, or touched since.
    Marked,
    /// A frame that is neither.
    Free,
}
