//! When a value expires.
ghost use Rattle.std.specs.Prelude.{◌≡◌, FitsSigned, MatchOption};
ghost use Rattle.std.specs.Int.{w64};
ghost use Rattle.std.specs.Option.{SomeIff};
ghost use Rattle.commands.specs.Times.{counted, since, when, IsTime, deadline_at};

/// What a number counts, and from when on.
#[derive(Clone, Copy, PartialEq, Eq)]
pub enum Clock {
    /// Seconds from now on.
    Seconds,
    /// Milliseconds from now on.
    Milliseconds,
    /// Seconds since 1970.
    UnixSeconds,
    /// Milliseconds since 1970.
    UnixMilliseconds,
}

/// A time as a command gives it.
#[derive(Clone, Copy)]
pub struct Time {
    pub amount: i64,
    pub clock: Clock,
}

/// The milliseconds that an amount is.
fn milliseconds(clock: Clock, amount: i64) -> Option<i64>
    ensures { SomeIff result (FitsSigned w64 (counted clock amount)) (counted clock amount) }
{
    match clock {
        Clock::Seconds | Clock::UnixSeconds => amount.checked_mul(1000),
        Clock::Milliseconds | Clock::UnixMilliseconds => Some(amount),
    }
}

/// The milliseconds since 1970.
fn since_1970(clock: Clock, milliseconds: i64, now: u64) -> Option<i64>
    ensures { SomeIff result (FitsSigned w64 (since clock milliseconds now)) (since clock milliseconds now) }
{
    match clock {
        Clock::Seconds | Clock::Milliseconds => milliseconds.checked_add_unsigned(now),
        Clock::UnixSeconds | Clock::UnixMilliseconds => Some(milliseconds),
    }
}

fn deadline_of(at: i64) -> u64
    ensures { result ≡ deadline_at at }
{
    if at < 1 { 1 } else { at.unsigned_abs() }
}

impl Time {
    /// The deadline, in milliseconds since 1970, at a time that is given so too. A time before 1970 and its first
    /// millisecond have 1, which is expired at any later time. `None` where the milliseconds are not a number of 64 bits
    /// with a sign: "invalid expire time".
    pub fn deadline(self, now: u64) -> Option<u64>
        ensures { MatchOption result (¬ (IsTime self now)) (λ d. IsTime self now × (d ≡ deadline_at (when self now))) }
    {
        let Some(amount) = milliseconds(self.clock, self.amount) else {
            return None;
        };
        let Some(at) = since_1970(self.clock, amount, now) else {
            return None;
        };
        Some(deadline_of(at))
    }
}
