// What a desk does at a call.
ghost use Rattle.std.specs.Prelude.{◌≡◌, ℕ, List};
ghost use Rattle.promise.specs.Bytes.{Bytes};
ghost use Rattle.asking.specs.Desk.{shortened};
ghost use Rattle.asking.specs.House.{next64};
ghost use Rattle.desk_side.specs.Calls.{grabs};

use crate::requests::Requests;
use crate::say::Say;
use crate::slot::{Place, Slot, Waiting};
use crate::state::Asking;
use codec::call::Kind;
use ids::{CallNumber, Clock, Seq};

// How long a call is at most.
pub(crate) const LONGEST_CALL: usize = 1_048_850;

// The first byte of a call that takes a sheet.
const TAKE: u8 = Kind::Take as u8;

// Bytes that are longer than any call are asked for as the empty call.
fn shorten(call: &[u8]) -> &[u8]
    ensures { result.now ≡ shortened call.now }
{
    if call.len() > LONGEST_CALL { &[] } else { call }
}

// Whether a call may put something into hand: it takes a sheet.
fn may_grab(call: &[u8]) -> bool
    ensures { result ≡ grabs call.now }
{
    matches!(call, [TAKE, ..])
}

fn next(last: Seq) -> Seq
    ensures { result.0 ≡ next64 last.0 }
{
    Seq(last.0.saturating_add(1))
}

impl Asking {
    ghost use Rattle.asking.specs.Desk as m;
    ghost use Rattle.desk_side.specs.Said.{said_if, says_first};
    ghost use Rattle.desk_side.specs.View.{desk_of, requests_in};

    // A Request for the call that was put into its place; without a session a Hello, if no other call waits.
    fn first_said(&self, place: Place, alone: bool) -> Option<Say>
        ensures { (ps : List Bytes) (t : ℕ) (b : Bytes) → said_if result t b ps self.now ≡ says_first t place alone ps self.now }
    {
        if self.session.is_some() {
            Some(Say::Request { place })
        } else {
            alone.then_some(Say::Hello)
        }
    }

    fn take_call(
        &mut self,
        requests: &mut Requests,
        place: Place,
        number: CallNumber,
        call: &[u8],
        clock: Clock,
    ) -> Option<Say>
        ensures { (b : Bytes) → said_if result clock.0 b (requests_in requests.new) self.new ≡ m.takes_call grabs clock.0 number.0 (m.shortened call.now) place.slot.0 place.seq.0 (desk_of (requests_in requests.old) self.old) }
    {
        let alone = self.none_waits();
        requests.put(place, call);
        let waiting = Waiting {
            number,
            sent: self.session.is_some(),
            first: clock,
            last: clock,
        };
        self.slots[usize::from(place.slot.0)] = Slot {
            seq: place.seq,
            waiting: Some(waiting),
        };
        self.may_hold = self.may_hold || may_grab(shorten(call));
        self.first_said(place, alone)
    }

    pub(crate) fn call(
        &mut self,
        requests: &mut Requests,
        number: CallNumber,
        call: &[u8],
        clock: Clock,
    ) -> Option<Say>
        ensures { (b : Bytes) → said_if result clock.0 b (requests_in requests.new) self.new ≡ m.desk_called grabs clock.0 number.0 call.now (desk_of (requests_in requests.old) self.old) }
    {
        let Some(last) = self.free() else {
            return Some(Say::Busy { number });
        };
        let place = Place {
            slot: last.slot,
            seq: next(last.seq),
        };
        self.take_call(requests, place, number, call, clock)
    }
}
