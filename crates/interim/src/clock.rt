// A clock that is told what it shows.
ghost use Rattle.std.specs.Prelude.{◌≡◌, ℕ, ◌≤◌, ◌↔◌, IsOk, OnOk, OnErr, Some, codes};

use ids::Clock;
use std::error::Error;
use std::fmt;
use std::marker::Model;

// What a clock shows, which never goes back.
#[derive(Drop)]
pub struct MonotonicClock {
    shows: Clock,
}

impl Model for MonotonicClock {
    ghost Value = { ℕ };

    ghost view = { λ c. c.shows.0 };
}

// A clock was told less than it shows.
#[derive(Clone, Copy, Debug, PartialEq, Eq)]
pub struct GoesBack;

impl fmt::Display for GoesBack {
    ghost output = { λ _. Some (codes "the clock goes back") };

    fn fmt<W: fmt::Write>(&self, f: &mut fmt::Formatter<W>) -> fmt::Result {
        f.write_str("the clock goes back")
    }
}

impl Error for GoesBack {}

impl MonotonicClock {
    pub fn new() -> MonotonicClock
        ensures { result ≡ 0 }
    {
        MonotonicClock { shows: Clock(0) }
    }

    // It shows this from here on, unless it would go back.
    pub fn set(&mut self, clock: Clock) -> Result<(), GoesBack>
        ensures forward { IsOk result ↔ (self.old ≤ clock.0) }
        ensures shows { OnOk result (self.new ≡ clock.0) }
        ensures kept { OnErr result (self.new ≡ self.old) }
    {
        if clock < self.shows {
            return Err(GoesBack);
        }
        self.shows = clock;
        Ok(())
    }
}
