// A desk's memory, and what is said out of it. All of it is lent at the beginning.
ghost use Rattle.std.specs.Prelude.{◌≡◌, ◌≤◌};
ghost use Rattle.messages.specs.Views.{msg_of, message_size, MessageFits};
ghost use Rattle.promise.specs.Bytes.{Bytes};

use crate::greeting::Greeting;
use crate::output::Output;
use crate::outputs::Outputs;
use crate::requests::Requests;
use crate::say::Say;
use crate::slot::{Place, Which};
use crate::state::Asking;
use ids::Clock;
use messages::Message;

#[derive(Drop)]
pub(crate) struct Memory {
    pub(crate) asking: Asking,
    pub(crate) requests: Requests,
    pub(crate) greeting: Greeting,
    pub(crate) outputs: Outputs,
}

impl Memory {
    ghost use Rattle.std.specs.Prelude.{List, [], slice_index_or};
    ghost use Rattle.promise.specs.Desks.{To};
    ghost use Rattle.codec.specs.Messages.{Request};
    ghost use Rattle.desk_side.specs.Desks.{Did, desk_of_memory};
    ghost use Rattle.desk_side.specs.Outputs.{out_of};
    ghost use Rattle.desk_side.specs.Said.{said, says, asks_all};
    ghost use Rattle.desk_side.specs.Slots.{call_in};
    ghost use Rattle.desk_side.specs.View.{requests_in};

    // A message of 21 bytes, and the output that stands for it.
    fn greet(&mut self, message: Message<'_>, output: Output, clock: Clock)
        requires fits { MessageFits (msg_of message) }
        requires room { message_size (msg_of message) ≤ 21 }
        requires greeting { (ps : List Bytes) (g b : Bytes) → out_of ps g b output ≡ To 0 g }
        ensures { (b : Bytes) → Did self.new b (says clock.0 (msg_of message.entry) (desk_of_memory self.old)) }
    {
        self.greeting.write(message);
        self.outputs.put_alone(output);
        self.asking.spoke = clock;
    }

    // A Request for the call in one place.
    fn request(&mut self, place: Place, clock: Clock)
        ensures { (b : Bytes) → Did self.new b (says clock.0 (Request (desk_of_memory self.old).session place.slot.0 place.seq.0 (call_in (slice_index_or (requests_in self.old.requests) place.slot.0 []))) (desk_of_memory self.old)) }
    {
        let session = self.asking.session_said();
        self.requests.seal(session, place);
        self.outputs.put_alone(Output::Request { slot: place.slot });
        self.asking.spoke = clock;
    }

    // A Request for each call that waits and is to be asked for.
    fn ask(&mut self, which: Which, clock: Clock)
        ensures { (b : Bytes) → Did self.new b (asks_all which clock.0 (desk_of_memory self.old)) }
    {
        let session = self.asking.session_said();
        self.requests
            .ask_all(&mut self.outputs, session, &self.asking.slots, which);
        self.asking = self.asking.count_sent(which, clock);
    }

    // Says and tells what was decided.
    pub(crate) fn say(&mut self, say: Say, clock: Clock)
        ensures { (b : Bytes) → Did self.new b (said say clock.0 b (requests_in self.old.requests) self.old.asking) }
    {
        match say {
            Say::Hello => {
                let nonce = self.asking.nonce;
                self.greet(Message::Hello { nonce }, Output::Hello, clock);
            }
            Say::Alive => {
                let session = self.asking.session_said();
                self.greet(Message::Alive { session }, Output::Alive, clock);
            }
            Say::Request { place } => self.request(place, clock),
            Say::Requests { which } => self.ask(which, clock),
            Say::Tell { number, start, len } => {
                self.outputs.put_alone(Output::Tell { number, start, len });
            }
            Say::Busy { number } => self.outputs.put_alone(Output::Busy { number }),
        }
    }
}
