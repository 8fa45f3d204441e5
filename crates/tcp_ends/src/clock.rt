//! The system's clock.
ghost use Rattle.std.specs.Prelude.{◌≤◌, None};
ghost use Rattle.serve_io.specs.Clock.{last_moment};

use serve_io::{Clock, LAST_MOMENT};
use std::time;
use std::time::{SystemTime, UNIX_EPOCH};

/// The system's clock, which tells no moments ahead.
///
/// Where the system gives no moment from 0 to `LAST_MOMENT`, it gives the last moment that it gave, and 0 at first.
#[derive(Drop)]
pub struct SystemClock<'a, R> {
    rt: &'a R,
    last: u64,
    ghost within: { last ≤ last_moment },
}

impl<'a, R> SystemClock<'a, R> {
    /// The clock of a runtime.
    pub fn new(rt: &'a R) -> SystemClock<'a, R> {
        SystemClock { rt, last: 0 }
    }
}

/// The seconds from 1970, where the system tells them and it is no earlier.
fn seconds<R: time::Clock>(rt: &R) -> Option<u64> {
    let now = SystemTime::now(rt).ok()?;
    let since = now.duration_since(UNIX_EPOCH).ok()?;
    Some(since.as_secs())
}

impl<'a, R: time::Clock> Clock for SystemClock<'a, R> {
    ghost moments = { λ _. None };

    fn now(&mut self) -> u64 {
        match seconds(self.rt) {
            Some(now) if now <= LAST_MOMENT => {
                self.last = now;
                now
            }
            _ => self.last,
        }
    }
}
