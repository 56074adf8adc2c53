// What the house does at each thing that comes.
ghost use Rattle.std.specs.Prelude.{◌≡◌, false, nat_lt};
ghost use Rattle.codec.specs.Messages.{decode_msg};
ghost use Rattle.messages.specs.Views.{msg_of};
ghost use Rattle.asking.specs.House.{hello as hello_to, takes_up, new_change_by, current, request_by, eight, hearing, house_hears, house_tick};
ghost use Rattle.house_side.specs.Tables.{reads};
ghost use Rattle.house_side.specs.Houses.{received};
ghost use Rattle.house_side.specs.Minds.{Turns, TurnsTo, mind_of, mind_after};

use crate::house::House;
use crate::lapses::empty_hands;
use crate::store::Store;
use ids::{Clock, DeskId, Nonce, RequestId, Session};
use messages::{Message, read_message};
use sessions::peer::Admit;
use sessions::place::Place;

impl<S: Store> House<S> {
    fn hello(&mut self, place: Place, nonce: Nonce)
        ensures { Turns S.Store.room S.Store.state self.old self.new (λ h. hello_to place.desk.0 nonce.0 h) }
    {
        let session = self.sessions.hello(place, nonce);
        self.out.welcome(place.desk(), nonce, session);
    }

    // A session that is offered becomes the current one as soon as it is used, and the hands of the desk's last incarnation are emptied.
    fn take_up(&mut self, place: Place, session: Session)
        ensures mind { mind_after S.Store.room S.Store.state self.old self.new ≡ takes_up place.desk.0 session.0 (mind_of S.Store.room S.Store.state self.old) }
        ensures room { S.Store.room self.new.table ≡ S.Store.room self.old.table }
    {
        if self.sessions.take_up(place, session) {
            self.table.leave(place.desk());
        }
    }

    // A new change: it is done, its answer kept and sent.
    fn change(&mut self, place: Place, request: RequestId, call: &[u8])
        requires { reads call.now ≡ false }
        ensures { Turns S.Store.room S.Store.state self.old self.new (λ h. new_change_by place.desk.0 request.session.0 request.slot.0 request.seq.0 call.now false h) }
    {
        let desk = place.desk();
        let answer = Some(self.table.change(desk, call));
        self.sessions.keep(place, request, answer);
        self.out.change(desk, request, answer);
    }

    // A request under the session that is current now, or under another.
    fn serve(&mut self, place: Place, request: RequestId, call: &[u8])
        ensures { Turns S.Store.room S.Store.state self.old self.new (λ h. current place.desk.0 request.session.0 request.slot.0 request.seq.0 call.now h) }
    {
        let reads = self.table.only_reads(call);
        match self.sessions.admit(place, request, reads) {
            Admit::Query => self.out.query(place.desk(), request, &self.table, call),
            Admit::Change => self.change(place, request, call),
            Admit::Again(answer) => self.out.change(place.desk(), request, answer),
            Admit::Ignore => self.out.clear(),
        }
    }

    fn request(&mut self, place: Place, request: RequestId, call: &[u8])
        ensures { Turns S.Store.room S.Store.state self.old self.new (λ h. request_by place.desk.0 request.session.0 request.slot.0 request.seq.0 call.now (nat_lt request.slot.0 eight) h) }
    {
        if request.slot.0 < 8 {
            self.take_up(place, request.session);
            self.serve(place, request, call);
        } else {
            self.out.clear();
        }
    }

    // The hands of those who hold something and were silent for too long are emptied, and that is said.
    pub(crate) fn tick(&mut self, clock: Clock)
        ensures { Turns S.Store.room S.Store.state self.old self.new (λ h. house_tick clock.0 h) }
    {
        self.out.lapse(&self.table, &self.sessions, clock);
        empty_hands(&mut self.table, &self.out.lapsed);
    }

    // What a desk says, that was heard by it.
    fn heed(&mut self, place: Place, message: Message<'_>)
        ensures { Turns S.Store.room S.Store.state self.old self.new (λ h. house_hears place.desk.0 (msg_of message.entry) h) }
    {
        match message {
            Message::Hello { nonce } => self.hello(place, nonce),
            Message::Request { request, call } => self.request(place, request, call),
            Message::Welcome { .. } | Message::Response { .. } | Message::Alive { .. } => {
                self.out.clear();
            }
        }
    }

    // What a desk says.
    fn hear(&mut self, place: Place, message: Message<'_>, clock: Clock)
        ensures { Turns S.Store.room S.Store.state self.old self.new (λ h. house_hears place.desk.0 (msg_of message.entry) (hearing place.desk.0 clock.0 h)) }
    {
        self.sessions.hear(place, clock);
        self.heed(place, message);
    }

    // Bytes that came from anybody: what is no message, or comes from no desk, changes nothing.
    pub(crate) fn receive(&mut self, from: DeskId, bytes: &[u8], clock: Clock)
        ensures { TurnsTo S.Store.room S.Store.state self.old self.new (received from.0 (decode_msg bytes.now) clock.0 (mind_of S.Store.room S.Store.state self.old)) }
    {
        match (read_message(bytes), Place::try_from(from)) {
            (Some(message), Ok(place)) => self.hear(place, message, clock),
            _ => self.out.clear(),
        }
    }
}
