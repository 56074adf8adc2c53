// A place for a call.
ghost use Rattle.std.specs.Prelude.{◌≡◌, ℕ, ◌<◌, ◌≤◌, length, slice_index_or, None, MatchOption, IsSomeAnd};
ghost use Rattle.promise.specs.Bytes.{Bytes};
ghost use Rattle.asking.specs.Desk as m;
ghost use Rattle.desk_side.specs.Slots.{passes, is_idle, is_passing, passing, slot_of, blank};

use ids::{CallNumber, Clock, Seq, SlotId};

// How many calls wait at a desk at most.
pub(crate) const SLOTS: usize = 8;

// seq: of its last call.
#[derive(Clone, Copy)]
pub(crate) struct Slot {
    pub(crate) seq: Seq,
    pub(crate) waiting: Option<Waiting>,
}

// A call that waits for its answer. sent: under the present session; first, last: when it was first and last asked for. The call itself stands
// in the slot's part of lent memory, beside the slots: that memory is reserved once, and a slot is a value that is copied, so it cannot hold it.
#[derive(Clone, Copy)]
pub(crate) struct Waiting {
    pub(crate) number: CallNumber,
    pub(crate) sent: bool,
    pub(crate) first: Clock,
    pub(crate) last: Clock,
}

// A call's place at its desk: one of the eight slots, and the call's seq there.
#[derive(Clone, Copy)]
pub(crate) struct Place {
    pub(crate) slot: SlotId,
    pub(crate) seq: Seq,
    ghost there: { slot.0 < 8 },
}

// Which of the calls that wait are asked for. An enum and no closure, since it is handed back in a `Say` before it is used.
#[derive(Clone, Copy)]
pub(crate) enum Which {
    // what was not sent under the present session
    NotSent,
    // what was last asked for so long ago, or longer
    Due { retry: u64, clock: Clock },
}

impl Place {
    // None where there is no such slot.
    pub(crate) fn at(slot: SlotId, seq: Seq) -> Option<Place>
        ensures { MatchOption result (8 ≤ slot.0) (λ place. (place.slot ≡ slot) × (place.seq ≡ seq)) }
    {
        // a branch and no `then`: the ghost field is proved where the test holds
        if slot.0 < 8 {
            Some(Place { slot, seq })
        } else {
            None
        }
    }
}

impl Which {
    fn takes(self, waiting: Waiting) -> bool
        ensures { result ≡ passes self waiting.sent waiting.last.0 }
    {
        match self {
            Which::NotSent => !waiting.sent,
            Which::Due { retry, clock } => retry <= clock.0.saturating_sub(waiting.last.0),
        }
    }
}

impl Slot {
    pub(crate) fn is_idle(&self) -> bool
        ensures { result ≡ is_idle self.now }
    {
        self.waiting.is_none()
    }

    // Whether a call waits here that is to be asked for.
    pub(crate) fn is_asked(&self, which: Which) -> bool
        ensures { result ≡ is_passing which self.now }
    {
        self.waiting.is_some_and(|waiting| which.takes(waiting))
    }

    // The seq of the call that is asked for, if one is.
    pub(crate) fn asked(&self, which: Which) -> Option<Seq>
        ensures { result ≡ passing which self.now }
    {
        self.is_asked(which).then_some(self.seq)
    }

    // The call that waits, if one does, is what `change` makes of it.
    fn with_waiting<F: FnOnce(Waiting) -> Waiting>(self, change: F) -> Slot
        requires { F.IsAlwaysCallable change }
        ensures seq { result.seq ≡ self.seq }
        ensures waiting { MatchOption self.waiting (result.waiting ≡ None) (λ x. IsSomeAnd result.waiting (F.post change x)) }
    {
        Slot {
            waiting: self.waiting.map(change),
            ..self
        }
    }

    // It was sent now, if it was asked for.
    pub(crate) fn sent_now(self, which: Which, clock: Clock) -> Slot
        ensures { (part : Bytes) → slot_of result part ≡ m.sent_now (passes which) clock.0 (slot_of self part) }
    {
        self.with_waiting(|waiting| {
            if which.takes(waiting) {
                Waiting {
                    sent: true,
                    last: clock,
                    ..waiting
                }
            } else {
                waiting
            }
        })
    }

    // It does not count as sent.
    pub(crate) fn unsent(self) -> Slot
        ensures { (part : Bytes) → slot_of result part ≡ m.unsent (slot_of self part) }
    {
        self.with_waiting(|waiting| Waiting {
            sent: false,
            ..waiting
        })
    }

    // It does not count as sent, and as last asked for now.
    pub(crate) fn unsent_now(self, clock: Clock) -> Slot
        ensures { (part : Bytes) → slot_of result part ≡ m.unsent_now clock.0 (slot_of self part) }
    {
        self.with_waiting(|waiting| Waiting {
            sent: false,
            last: clock,
            ..waiting
        })
    }
}

pub(crate) fn change_each<F: Fn(Slot) -> Slot>(slots: &mut [Slot], change: F)
    requires { F.IsAlwaysCallable change }
    ensures { (k : ℕ) → k < length slots.old → F.post change (slice_index_or slots.old k blank) (slice_index_or slots.new k blank) }
{
    for slot in slots.iter_mut() {
        *slot = change(*slot);
    }
}
