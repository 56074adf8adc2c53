// The house as a program runs it.
ghost use Rattle.std.specs.Prelude.{◌≡◌};
ghost use Rattle.asking.specs.House.{house_goes_on};
ghost use Rattle.asking.specs.Code.{Settings, house as of_house, byte_turn};
ghost use Rattle.house_side.specs.Outs.{message_of};
ghost use Rattle.house_side.specs.Minds.{mind_of, mind_after, turned_to};
ghost use Rattle.house_side.specs.Comings.{comes_of, sent_of, minded};

use crate::event::Event;
use crate::house::House;
use crate::sent::Sent;
use crate::store::Store;
use ids::{Clock, DeskId};

impl<S: Store> House<S> {
    // What comes: what the house does then is the model's turn, whatever it knows and whatever comes.
    pub fn turn(&mut self, event: Event<'_>, clock: Clock)
        ensures turn { (z : Settings) → byte_turn z (comes_of event.entry) clock.0 (of_house (mind_of S.Store.room S.Store.state self.old)) ≡ minded (turned_to S.Store.room S.Store.state self.old self.new) }
        ensures room { S.Store.room self.new.table ≡ S.Store.room self.old.table }
    {
        match event {
            Event::Message { from, bytes } => self.receive(from, bytes, clock),
            Event::Tick => self.tick(clock),
        }
    }

    // The house goes on after it was dark.
    pub fn go_on(&mut self, clock: Clock)
        ensures mind { mind_after S.Store.room S.Store.state self.old self.new ≡ house_goes_on clock.0 (mind_of S.Store.room S.Store.state self.old) }
        ensures room { S.Store.room self.new.table ≡ S.Store.room self.old.table }
    {
        self.sessions.go_on(clock);
    }

    // The message that the last turn sends, if it sends one.
    pub fn message(&self) -> Option<Sent<'_>>
        ensures { sent_of result ≡ message_of self.now.out.to self.now.out.message.bytes.items }
    {
        let to = self.out.to?;
        Some(Sent {
            to,
            bytes: self.out.message.bytes.as_slice(),
        })
    }

    // Whose hold has ended by the last turn.
    pub fn lapsed(&self) -> &[DeskId]
        ensures { result.now ≡ self.now.out.lapsed.items }
    {
        self.out.lapsed.as_slice()
    }
}
