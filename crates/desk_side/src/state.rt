// What a desk knows of its asking. What changes it as a whole takes the value and hands it back; a turn puts that in its place.
ghost use Rattle.std.specs.Prelude.{◌≡◌, ◌≢◌, not, ◌&&◌, ◌==◌, ◌<◌, List, is_some, if◌then◌else◌, IfSome};
ghost use Rattle.std.specs.List.{list_all, list_any, position_from};
ghost use Rattle.std.specs.Option.{ForSome};
ghost use Rattle.promise.specs.Bytes.{Bytes};
ghost use Rattle.desk_side.specs.Sessions.{session_of};

use crate::slot::{Place, SLOTS, Slot, Which, change_each};
use ids::{CallNumber, Clock, Nonce, Seq, Session, SlotId};

// What stands in a message for no session.
const NO_SESSION: Session = Session(0);

// How long a desk that may have something in hand is silent at most, in milliseconds.
const LONGEST_SILENCE: u64 = 20_000;

// session: what the house gave it; answered: in this incarnation; spoke: when it last said anything; may_hold: may it have something in hand
#[derive(Clone, Copy)]
pub(crate) struct Asking {
    pub(crate) nonce: Nonce,
    pub(crate) session: Option<Session>,
    pub(crate) answered: bool,
    pub(crate) spoke: Clock,
    pub(crate) may_hold: bool,
    pub(crate) slots: [Slot; SLOTS],
    ghost given: { ForSome session (λ s. s.0 ≢ 0) },
}

// The session of a message, if it is one.
fn given(session: Session) -> Option<Session>
    ensures number { session_of result ≡ session.0 }
    ensures given { ForSome result (λ s. s.0 ≢ 0) }
{
    (session != NO_SESSION).then_some(session)
}

impl Asking {
    ghost use Rattle.asking.specs.Desk as m;
    ghost use Rattle.asking.specs.House.{is_session};
    ghost use Rattle.desk_side.specs.Slots.{passes, is_idle, is_passing};
    ghost use Rattle.desk_side.specs.View.{desk_of, free_place};
    ghost use Rattle.desk_side.specs.Steps.{silent, asked, waits, settled, started_over};

    pub(crate) fn begin(nonce: Nonce, clock: Clock) -> Asking
        ensures { (ps : List Bytes) → desk_of ps result ≡ m.desk_begins nonce.0 clock.0 }
    {
        Asking {
            nonce,
            session: None,
            answered: false,
            spoke: clock,
            may_hold: false,
            slots: [Slot {
                seq: Seq(0),
                waiting: None,
            }; SLOTS],
        }
    }

    // Its session, as messages say it.
    pub(crate) fn session_said(&self) -> Session
        ensures { result.0 ≡ session_of self.now.session }
    {
        self.session.unwrap_or(NO_SESSION)
    }

    fn first_idle(&self) -> Option<usize>
        ensures value { result ≡ position_from is_idle 0 self.now.slots }
        ensures bound { IfSome result (λ j. j < 8) }
    {
        self.slots.iter().position(|slot| slot.is_idle())
    }

    // The first slot that is idle, and the seq of its last call.
    pub(crate) fn free(&self) -> Option<Place>
        ensures { (ps : List Bytes) → m.first_idle 0 (desk_of ps self.now).slots ≡ free_place result }
    {
        let j = self.first_idle()?;
        Some(Place {
            slot: SlotId(j as u8),
            seq: self.slots[j].seq,
        })
    }

    pub(crate) fn none_waits(&self) -> bool
        ensures { result ≡ list_all is_idle self.now.slots }
    {
        self.slots.iter().all(|slot| slot.is_idle())
    }

    // Whether any call is to be asked for.
    pub(crate) fn any_asked(&self, which: Which) -> bool
        ensures { result ≡ list_any (is_passing which) self.now.slots }
    {
        self.slots.iter().any(|slot| slot.is_asked(which))
    }

    // Whether it may have something in hand, and has said nothing for long.
    pub(crate) fn is_silent(&self, clock: Clock) -> bool
        ensures { (ps : List Bytes) → result ≡ silent clock.0 (desk_of ps self.now) }
    {
        self.session.is_some()
            && self.may_hold
            && clock.0.saturating_sub(self.spoke.0) >= LONGEST_SILENCE
    }

    pub(crate) fn is_mine(&self, nonce: Nonce, session: Session) -> bool
        ensures { result ≡ (nonce.0 == self.now.nonce.0 && (not (session.0 == 0) && not self.now.answered)) }
    {
        nonce == self.nonce && session != NO_SESSION && !self.answered
    }

    pub(crate) fn is_session(&self, session: Session) -> bool
        ensures { result ≡ is_session session.0 (session_of self.now.session) }
    {
        self.session == Some(session)
    }

    // Under another session than before nothing counts as sent.
    pub(crate) fn adopt(mut self, session: Session) -> Asking
        ensures { (ps : List Bytes) → desk_of ps result ≡ m.adopts_by session.0 (session.0 == session_of self.session) (desk_of ps self) }
    {
        let session = given(session);
        if self.session == session {
            return self;
        }
        change_each(&mut self.slots, |slot| slot.unsent());
        self.session = session;
        self
    }

    // A Hello is said for all that waits.
    pub(crate) fn start_over(mut self, clock: Clock) -> Asking
        ensures { (ps : List Bytes) → desk_of ps result ≡ started_over clock.0 (desk_of ps self) }
    {
        change_each(&mut self.slots, |slot| slot.unsent_now(clock));
        self
    }

    // All that was to be asked for was asked for now.
    pub(crate) fn count_sent(mut self, which: Which, clock: Clock) -> Asking
        ensures { (ps : List Bytes) → desk_of ps result ≡ asked (passes which) (list_any (is_passing which) self.slots) clock.0 (desk_of ps self) }
    {
        self.spoke = if self.any_asked(which) {
            clock
        } else {
            self.spoke
        };
        change_each(&mut self.slots, |slot| slot.sent_now(which, clock));
        self
    }

    // The number of the call that waits in just this place.
    pub(crate) fn waiting(&self, place: Place) -> Option<CallNumber>
        ensures { result ≡ waits place.slot.0 place.seq self.now.slots }
    {
        let slot = self.slots[usize::from(place.slot.0)];
        let waiting = slot.waiting.filter(|_| slot.seq == place.seq)?;
        Some(waiting.number)
    }

    // Its call was answered.
    pub(crate) fn settle(mut self, place: Place) -> Asking
        ensures { (ps : List Bytes) → desk_of ps result ≡ settled place.slot.0 place.seq.0 (desk_of ps self) }
    {
        self.slots[usize::from(place.slot.0)] = Slot {
            seq: place.seq,
            waiting: None,
        };
        self.answered = true;
        self
    }
}
