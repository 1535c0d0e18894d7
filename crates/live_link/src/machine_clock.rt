//! The machine's clock. Nothing is claimed of its readings.
ghost use Rattle.std.specs.Prelude.{None};

use crate::seconds::Seconds;
use std::rt::Clock;
use std::time::Instant;

/// The whole seconds since it was made.
#[derive(Drop)]
pub struct MachineClock<'a, R: Clock> {
    rt: &'a R,
    /// None where the machine's clock could not be read.
    start: Option<Instant>,
    last: u64,
}

impl<'a, R: Clock> MachineClock<'a, R> {
    /// A clock that starts at 0.
    pub fn new(rt: &'a R) -> MachineClock<'a, R> {
        MachineClock {
            rt,
            start: Instant::now(rt).ok(),
            last: 0,
        }
    }
}

impl<R: Clock> Seconds for MachineClock<'_, R> {
    ghost read = { λ _. None };

    /// Where the machine's clock cannot be read, it stands.
    fn now(&mut self) -> u64 {
        if let Some(start) = self.start {
            if let Ok(passed) = start.elapsed(self.rt) {
                self.last = passed.as_secs();
            }
        }
        self.last
    }
}
