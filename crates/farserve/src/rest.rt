//! How long a failing store is left alone.
//!
//! A call to a store that is away can take as long as the store may be silent, and others wait for it
//! meanwhile. A store that refuses would be asked again and again. So after a failure no call of this kind is
//! made for a while: each fails at once. The first pause is short, and each further failure doubles it. A
//! call that succeeds ends it.

/// The first pause, in milliseconds.
const FIRST: u64 = 10;

/// The longest pause, in milliseconds.
const LONGEST: u64 = 5_000;

/// The pause of one kind of call: its length, 0 for none, and the time until which no call is made. Both are
/// in milliseconds, by a clock that never goes back.
#[derive(Clone, Copy)]
pub struct Rest {
    pause: u64,
    until: u64,
}

impl Rest {
    /// No pause: the last call did not fail.
    pub fn none() -> Rest {
        Rest { pause: 0, until: 0 }
    }

    /// Whether the last call failed.
    pub fn is_on(self) -> bool {
        self.pause > 0
    }

    /// Whether no call may be made now.
    pub fn forbids(self, now: u64) -> bool {
        self.is_on() && now < self.until
    }

    /// The pause after a call that was made at the time `now`. If it failed, the pause is twice the last one,
    /// from 10 ms to 5 s. If not, there is none.
    pub fn after(self, failed: bool, now: u64) -> Rest {
        if !failed {
            return Rest::none();
        }
        let pause = self.pause.saturating_mul(2).clamp(FIRST, LONGEST);
        Rest {
            pause,
            until: now.saturating_add(pause),
        }
    }
}
