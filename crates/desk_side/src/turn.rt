// The turn of a desk: something comes, and it has done something and knows something else then.
ghost use Rattle.std.specs.Prelude.{◌≡◌, ℕ, List};
ghost use Rattle.promise.specs.Bytes.{Bytes};
ghost use Rattle.codec.specs.Messages.{decode_msg};

use crate::desk::Desk;
use crate::memory::Memory;
use crate::output::Event;
use crate::requests::Requests;
use crate::say::Say;
use crate::state::Asking;
use ids::{Clock, DeskId};

// From whom a desk hears. In lines, and in the model that is proved to be kept, the house has a number as desks have: so it is no variant of its own.
const HOUSE: DeskId = DeskId(0);

impl Asking {
    ghost use Rattle.desk_side.specs.Desks.{settings};
    ghost use Rattle.desk_side.specs.Said.{said_if};
    ghost use Rattle.desk_side.specs.Turns.{comes_of, came_of, decoded, turn_of};
    ghost use Rattle.desk_side.specs.View.{desk_of, requests_in};

    // At a message. What does not come from the house is noise.
    fn hear_from(&mut self, from: DeskId, bytes: &[u8]) -> Option<Say>
        ensures { (ps : List Bytes) (t : ℕ) → said_if result t bytes.now ps self.new ≡ decoded from.0 t (decode_msg bytes.now) (desk_of ps self.old) }
    {
        if from != HOUSE {
            return None;
        }
        self.hear(bytes)
    }

    // What it decides to say at what comes. What it knows is changed in `self`; a call that is taken goes into `requests`.
    // Event, retry and clock are no struct: a message needs neither of the other two, a call no retry, so it would be taken apart here.
    fn come(
        &mut self,
        requests: &mut Requests,
        event: Event<'_>,
        retry: u64,
        clock: Clock,
    ) -> Option<Say>
        ensures { said_if result clock.0 (came_of event.entry) (requests_in requests.new) self.new ≡ turn_of (settings retry) (comes_of event.entry) clock.0 (desk_of (requests_in requests.old) self.old) }
    {
        match event {
            Event::Message { from, bytes } => self.hear_from(from, bytes),
            Event::Call { number, call } => self.call(requests, number, call, clock),
            Event::Tick => self.tick(retry, clock),
        }
    }
}

impl Memory {
    ghost use Rattle.desk_side.specs.Desks.{Did, desk_of_memory, settings};
    ghost use Rattle.desk_side.specs.Turns.{comes_of, came_of, turn_of};

    fn turn(&mut self, event: Event<'_>, retry: u64, clock: Clock)
        ensures { Did self.new (came_of event.entry) (turn_of (settings retry) (comes_of event.entry) clock.0 (desk_of_memory self.old)) }
    {
        let say = self.asking.come(&mut self.requests, event, retry, clock);
        match say {
            Some(say) => self.say(say, clock),
            None => self.outputs.clear(),
        }
    }
}

impl Desk {
    ghost use Rattle.desk_side.specs.Desks.{desk_in, outs_in, settings};
    ghost use Rattle.desk_side.specs.Turns.{comes_of, came_of, AsModel};

    // What it did is in its outputs, until the next turn. Noise, and what does not come from the house, leaves all as it was.
    pub fn turn(&mut self, event: Event<'_>, clock: Clock)
        ensures model { AsModel (settings self.old.retry) (comes_of event.entry) clock.0 (desk_in self.old) (outs_in self.new (came_of event.entry)) (desk_in self.new) }
        ensures retry { self.new.retry ≡ self.old.retry }
    {
        self.memory.turn(event, self.retry, clock);
    }
}
