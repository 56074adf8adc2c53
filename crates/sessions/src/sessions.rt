// What the house knows of all desks: their sessions, and when it last heard each.
ghost use Rattle.std.specs.Prelude.{◌<◌};

use crate::incarnation::Incarnation;
use crate::peer::{Admit, Peer};
use crate::place::Place;
use codec::answer::Outcome;
use ids::{Clock, Nonce, RequestId, Session};

// What is known of a desk's sessions, and when it was last heard.
#[derive(Clone, Copy)]
pub(crate) struct Entry {
    pub(crate) peer: Peer,
    pub(crate) heard: Clock,
}

#[derive(Drop)]
pub struct Sessions {
    // the next session to be given out
    next: Session,
    // by the desks' numbers; the first is the house's own place
    desks: [Entry; 64],
    ghost given_from_one: { 0 < next.0 },
}

impl Sessions {
    ghost use Rattle.std.specs.Prelude.{◌≡◌, ◌-◌, nat_le};
    ghost use Rattle.sessions.specs.View.{kept_bytes, admit_view};
    ghost use Rattle.sessions.specs.Known.{begun, going_on, hearing_at, welcomed, greeted, is_taken_up, taking_up, admitted, keeping, heard_in};
    ghost use Rattle.sessions.specs.Views.{known};

    // Nobody is known yet, and every desk counts as heard.
    pub fn begin(clock: Clock) -> Sessions
        ensures { known result ≡ begun clock.0 }
    {
        let unknown = Entry {
            peer: Peer::nobody(),
            heard: clock,
        };
        Sessions {
            next: Session(1),
            desks: [unknown; 64],
        }
    }

    // Every desk counts as heard.
    pub fn go_on(&mut self, clock: Clock)
        ensures { known self.new ≡ going_on clock.0 (known self.old) }
    {
        for desk in self.desks.iter_mut() {
            desk.heard = clock;
        }
    }

    // A desk is heard.
    pub fn hear(&mut self, place: Place, clock: Clock)
        ensures { known self.new ≡ hearing_at place.desk.0 clock.0 (known self.old) }
    {
        self.desks[place.index()].heard = clock;
    }

    // A desk says hello: the session that it is welcomed to, a new one if its nonce has none.
    pub fn hello(&mut self, place: Place, nonce: Nonce) -> Session
        ensures session { result.0 ≡ welcomed place.desk.0 nonce.0 (known self.old) }
        ensures known { known self.new ≡ greeted place.desk.0 nonce.0 (known self.old) }
    {
        // Through the slice: the check does not follow a `&mut` into an array.
        let desk = &mut self.desks.as_mut_slice()[place.index()];
        if let Some(session) = desk.peer.session_of(nonce) {
            return session;
        }
        let session = self.next;
        desk.peer.offer(Incarnation { nonce, session });
        self.next = Session(session.0.saturating_add(1));
        session
    }

    // A session that is offered and used becomes the current one. Whether it did.
    pub fn take_up(&mut self, place: Place, session: Session) -> bool
        ensures value { result ≡ is_taken_up place.desk.0 session.0 (known self.old) }
        ensures known { known self.new ≡ taking_up place.desk.0 session.0 (known self.old) }
    {
        let desk = &mut self.desks.as_mut_slice()[place.index()];
        if !desk.peer.is_offered(session) {
            return false;
        }
        desk.peer.promote();
        true
    }

    // What is to be done with a request, which only reads or not.
    pub fn admit(&self, place: Place, request: RequestId, reads: bool) -> Admit
        ensures { admit_view result ≡ admitted place.desk.0 request.session.0 request.slot.0 request.seq.0 reads (known self.now) }
    {
        self.desks[place.index()].peer.admit(request, reads)
    }

    // A change was done in a slot: its answer is kept.
    pub fn keep(&mut self, place: Place, request: RequestId, answer: Option<Outcome>)
        ensures { known self.new ≡ keeping place.desk.0 request.slot.0 request.seq.0 (kept_bytes answer) (known self.old) }
    {
        let desk = &mut self.desks.as_mut_slice()[place.index()];
        desk.peer.record(request, answer);
    }

    // Whether a desk was not heard for 60,000 ms.
    pub fn is_silent(&self, place: Place, clock: Clock) -> bool
        ensures { result ≡ nat_le 60000 (clock.0 - heard_in place.desk.0 (known self.now)) }
    {
        let heard = self.desks[place.index()].heard;
        clock.0.saturating_sub(heard.0) >= 60_000
    }
}
