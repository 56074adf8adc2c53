// What a desk does at a beat of its clock.
ghost use Rattle.std.specs.Prelude.{◌≡◌, List};
ghost use Rattle.promise.specs.Bytes.{Bytes};

use crate::say::Say;
use crate::slot::Which;
use crate::state::Asking;
use ids::Clock;

impl Asking {
    ghost use Rattle.asking.specs.Desk as m;
    ghost use Rattle.desk_side.specs.Said.{said_if};
    ghost use Rattle.desk_side.specs.View.{desk_of};

    // Says that it is there, if it may have something in hand and has said nothing for long.
    fn keep_alive(&self, clock: Clock) -> Option<Say>
        ensures { (ps : List Bytes) (b : Bytes) → said_if result clock.0 b ps self.now ≡ m.alive clock.0 (desk_of ps self.now) }
    {
        self.is_silent(clock).then_some(Say::Alive)
    }

    // Calls that are due are asked for anew. As long as the house has not answered, one Hello says that all of them wait.
    // (A struct of retry and clock would be `Which::Due`, made one call earlier; the clock is needed beside it.)
    pub(crate) fn tick(&mut self, retry: u64, clock: Clock) -> Option<Say>
        ensures { (ps : List Bytes) (b : Bytes) → said_if result clock.0 b ps self.new ≡ m.desk_tick retry clock.0 (desk_of ps self.old) }
    {
        let due = Which::Due { retry, clock };
        if !self.any_asked(due) {
            return self.keep_alive(clock);
        }
        if self.answered {
            return Some(Say::Requests { which: due });
        }
        *self = self.start_over(clock);
        Some(Say::Hello)
    }
}
