//! What tells the time.
ghost use Rattle.std.specs.Prelude.{◌≡◌, ℕ, ◌≤◌, List, Option, Some, drop};
ghost use Rattle.serve_io.specs.Clock.{Ticks, AreMoments};

/// The last moment that a clock gives: 9999-12-31T23:59:59Z, in seconds from 1970.
pub const LAST_MOMENT: u64 = 253_402_300_799;

/// A clock means the list of moments that it holds, where it tells it. It can't fail.
pub trait Clock {
    ghost moments: { Self → Option (List ℕ) };

    /// The present moment, in seconds from 1970 in UTC, at most `LAST_MOMENT`.
    fn now(&mut self) -> u64
        ensures moment { Ticks (moments self.old) (moments self.new) result }
        ensures range { result ≤ LAST_MOMENT };
}

/// A list of moments, of which the last is repeated. Without any it gives 0.
#[derive(Debug, Drop)]
pub struct MemClock {
    moments: Vec<u64>,
    at: usize,
    ghost within: { AreMoments moments.items },
}

impl MemClock {
    /// A clock that gives these moments, each at most `LAST_MOMENT`.
    pub fn new(moments: Vec<u64>) -> MemClock
        requires { AreMoments moments.items }
        ensures { ⟦<MemClock as Clock>⟧.moments result ≡ Some moments.items }
    {
        MemClock { moments, at: 0 }
    }
}

impl Clock for MemClock {
    ghost moments = { λ c. Some (drop c.at c.moments.items) };

    fn now(&mut self) -> u64 {
        if self.at >= self.moments.len() {
            return 0;
        }
        let now = self.moments[self.at];
        if self.moments.len() - self.at > 1 {
            self.at += 1;
        }
        now
    }
}
