// What the house knows of one desk.
ghost use Rattle.std.specs.Prelude.{◌≡◌};
ghost use Rattle.asking.specs.House.{is_session, nobody as blank, slot_of};
ghost use Rattle.std.specs.Option.{option_map};
ghost use Rattle.sessions.specs.Peers.{session_of, offering, promoted, recording, admission};
ghost use Rattle.sessions.specs.View.{number, session_in, peer_view, done_view, kept_bytes, admit_view};

use crate::incarnation::Incarnation;
use codec::answer::Outcome;
use ids::{Nonce, RequestId, Seq, Session, SlotId};
use std::cmp::Ordering;

// The last change that was done in a slot, and its answer, if one was done.
#[derive(Clone, Copy)]
pub struct Done {
    pub seq: Seq,
    pub answer: Option<Outcome>,
}

// The incarnation whose session is current, the one to which a session is offered, and the slots of the current session.
#[derive(Clone, Copy)]
pub struct Peer {
    current: Option<Incarnation>,
    offered: Option<Incarnation>,
    slots: [Done; 8],
}

// What is to be done with a request.
#[derive(Clone, Copy)]
pub enum Admit {
    // it only reads: it is answered from the table as it is
    Query,
    // it is a new change
    Change,
    // it was done: the kept answer is sent again
    Again(Option<Outcome>),
    // it is of another session, or an old one
    Ignore,
}

// No change was done yet. A seq and no Option of a slot: request 0 of an unused slot is answered again too, by no bytes.
const UNUSED: Done = Done {
    seq: Seq(0),
    answer: None,
};

fn has_session(incarnation: Option<Incarnation>, session: Session) -> bool
    ensures { result ≡ is_session session.0 (session_in incarnation) }
{
    incarnation.is_some_and(|i| i.session == session)
}

impl Peer {
    pub(crate) fn nobody() -> Peer
        ensures { peer_view result ≡ blank }
    {
        Peer {
            current: None,
            offered: None,
            slots: [UNUSED; 8],
        }
    }

    // The session that was given to this nonce, if one was.
    pub(crate) fn session_of(&self, nonce: Nonce) -> Option<Session>
        ensures { option_map number result ≡ session_of nonce.0 (peer_view self.now) }
    {
        let is_its = |i: &Incarnation| i.nonce == nonce;
        let given = self.current.filter(is_its).or(self.offered.filter(is_its));
        given.map(|i| i.session)
    }

    // A session is offered, in the place of an older offer.
    pub(crate) fn offer(&mut self, to: Incarnation)
        ensures { peer_view self.new ≡ offering to.nonce.0 to.session.0 (peer_view self.old) }
    {
        self.offered = Some(to);
    }

    pub(crate) fn is_offered(&self, session: Session) -> bool
        ensures { result ≡ is_session session.0 (peer_view self.now).offered_session }
    {
        has_session(self.offered, session)
    }

    // The offered session becomes the current one, with unused slots.
    pub(crate) fn promote(&mut self)
        ensures { peer_view self.new ≡ promoted (peer_view self.old) }
    {
        self.current = self.offered.take();
        self.slots = [UNUSED; 8];
    }

    // The last change in a slot.
    fn done(&self, slot: SlotId) -> Done
        ensures { done_view result ≡ slot_of (peer_view self.now) slot.0 }
    {
        let last = self.slots.get(usize::from(slot.0));
        last.copied().unwrap_or(UNUSED)
    }

    // A change was done.
    pub(crate) fn record(&mut self, request: RequestId, answer: Option<Outcome>)
        ensures { peer_view self.new ≡ recording request.slot.0 request.seq.0 (kept_bytes answer) (peer_view self.old) }
    {
        let slot = usize::from(request.slot.0);
        // A test in place of `get_mut`, which promises nothing of the slots afterwards.
        if slot < self.slots.len() {
            self.slots[slot] = Done {
                seq: request.seq,
                answer,
            };
        }
    }

    // What is to be done with a request, which only reads or not.
    pub(crate) fn admit(&self, request: RequestId, reads: bool) -> Admit
        ensures { admit_view result ≡ admission request.session.0 request.slot.0 request.seq.0 reads (peer_view self.now) }
    {
        if !has_session(self.current, request.session) {
            return Admit::Ignore;
        }
        if reads {
            return Admit::Query;
        }
        let last = self.done(request.slot);
        match last.seq.cmp(&request.seq) {
            Ordering::Less => Admit::Change,
            Ordering::Equal => Admit::Again(last.answer),
            Ordering::Greater => Admit::Ignore,
        }
    }
}
