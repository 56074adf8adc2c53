// Requests for calls that wait.
ghost use Rattle.std.specs.Prelude.{◌≡◌, ◌+◌, ◌<◌, ◌≤◌, [], ◌++◌, length, slice_index_or, slice_set};

use crate::output::Output;
use crate::outputs::Outputs;
use crate::requests::Requests;
use crate::slot::{Place, SLOTS, Slot, Which};
use ids::{Session, SlotId};

impl Requests {
    ghost use Rattle.desk_side.specs.Outputs.{asks_by, asks_of, sealed, Holds};
    ghost use Rattle.desk_side.specs.Slots.{passing};
    ghost use Rattle.desk_side.specs.View.{outputs_in, requests_in};

    // Asks for the call of slot j, if it is to be asked for.
    fn ask_one(
        &mut self,
        outputs: &mut Outputs,
        session: Session,
        j: usize,
        slot: &Slot,
        which: Which,
    )
        requires there { j < 8 }
        requires room { length (outputs_in outputs.old) < 8 }
        ensures outs { outputs_in outputs.new ≡ outputs_in outputs.old ++ asks_by (passing which slot.now) j [] }
        ensures len { length (outputs_in outputs.new) ≤ length (outputs_in outputs.old) + 1 }
        ensures parts { requests_in self.new ≡ slice_set (requests_in self.old) j (sealed which session.0 j slot.now (slice_index_or (requests_in self.old) j [])) }
    {
        if let Some(seq) = slot.asked(which) {
            let slot = SlotId(j as u8);
            self.seal(session, Place { slot, seq });
            outputs.push(Output::Request { slot });
        }
    }

    // Asks for all that waits and is to be asked for, and nothing else is done.
    pub(crate) fn ask_all(
        &mut self,
        outputs: &mut Outputs,
        session: Session,
        slots: &[Slot; SLOTS],
        which: Which,
    )
        ensures outs { outputs_in outputs.new ≡ asks_of which 0 slots.now }
        ensures holds { Holds (requests_in self.new) which session.0 0 slots.now (requests_in self.old) }
    {
        outputs.clear();
        for (j, slot) in slots.iter().enumerate() {
            self.ask_one(outputs, session, j, slot, which);
        }
    }
}
