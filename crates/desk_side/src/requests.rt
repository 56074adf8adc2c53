// The memory of the calls that wait: for each slot a Request, its head and then the slot's call.
ghost use Rattle.std.specs.Prelude.{◌≡◌, [], slice_index_or, slice_set};
ghost use Rattle.codec.specs.Messages.{encode_msg, Request};
ghost use Rattle.desk_side.specs.Ready.{Ready};

use crate::slot::Place;
use ids::{RequestId, Session, SlotId};
use parts::lent::Parts;

#[derive(Drop)]
pub(crate) struct Requests {
    pub(crate) parts: Parts,
    ghost ready: { Ready parts },
}

impl Requests {
    ghost use Rattle.parts.specs.Places.{bodied};
    ghost use Rattle.asking.specs.Desk.{shortened};
    ghost use Rattle.desk_side.specs.Slots.{call_in};
    ghost use Rattle.desk_side.specs.View.{requests_in};

    // The slot's Request; the empty string, where there is no such slot.
    pub(crate) fn get(&self, slot: SlotId) -> &[u8]
        ensures { result.now ≡ slice_index_or (requests_in self.now) slot.0 [] }
    {
        self.parts.get(usize::from(slot.0))
    }

    // The slot's call from now on. One that is longer than any call counts as the empty one.
    pub(crate) fn put(&mut self, place: Place, call: &[u8])
        ensures parts { requests_in self.new ≡ slice_set (requests_in self.old) place.slot.0 (bodied 30 (slice_index_or (requests_in self.old) place.slot.0 []) (shortened call.now)) }
        ensures call { call_in (slice_index_or (requests_in self.new) place.slot.0 []) ≡ shortened call.now }
    {
        self.parts.put(usize::from(place.slot.0), call);
    }

    // The head before the slot's call.
    pub(crate) fn seal(&mut self, session: Session, place: Place)
        ensures { requests_in self.new ≡ slice_set (requests_in self.old) place.slot.0 (encode_msg (Request session.0 place.slot.0 place.seq.0 (call_in (slice_index_or (requests_in self.old) place.slot.0 [])))) }
    {
        let request = RequestId {
            session,
            slot: place.slot,
            seq: place.seq,
        };
        self.parts.seal_request(request).unwrap();
    }
}
