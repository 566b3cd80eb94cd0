//! A clock that a case sets.

use std::io;
use std::rt::Clock;
use std::sync::atomic::{AtomicU64, Ordering};
use std::time::Duration;

/// It tells the time of day that was set last, in milliseconds since 1970. Spans it measures as the system's clock does.
#[derive(Drop)]
pub struct SetClock<'a, R> {
    pub rt: &'a R,
    pub now: &'a AtomicU64,
}

impl<R: Clock> Clock for SetClock<'_, R> {
    fn monotonic(&self) -> io::Result<Duration> {
        self.rt.monotonic()
    }

    fn since_1970(&self) -> io::Result<Duration> {
        Ok(Duration::from_millis(self.now.load(Ordering::SeqCst)))
    }
}
