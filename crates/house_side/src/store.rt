// What the house asks of the table that it keeps.
ghost use Rattle.std.specs.Prelude.{◌≡◌, ℕ, ◌+◌, ◌<◌, ◌≤◌, true, false, ◌++◌, vec_len, vec_capacity};
ghost use Rattle.promise.specs.Sheets.{State};
ghost use Rattle.house_side.specs.Tables.{reads, answer_to, after, leaves, in_hand, longest_answer};
ghost use Rattle.sessions.specs.View.{outcome_bytes};

use codec::answer::Outcome;
use ids::DeskId;

pub trait Store {
    ghost state: { Self → State };

    // what all sheets together may weigh
    ghost room: { Self → ℕ };

    // Whether a call only reads, or is turned away whatever the table holds.
    fn only_reads(&self, call: &[u8]) -> bool
        ensures { result ≡ reads call.now };

    // What a call is answered that only reads, behind what is there already.
    fn query(&self, desk: DeskId, call: &[u8], out: &mut Vec<u8>)
        requires { (reads call.now ≡ true) × (vec_len out.old + longest_answer ≤ vec_capacity out.old) }
        ensures answer { out.new.items ≡ out.old.items ++ answer_to (room self.now) desk.0 call.now (state self.now) }
        ensures fits { vec_len out.new ≤ vec_len out.old + longest_answer }
        ensures cap { vec_capacity out.new ≡ vec_capacity out.old };

    // A call that may change the table.
    fn change(&mut self, desk: DeskId, call: &[u8]) -> Outcome
        requires { reads call.now ≡ false }
        ensures answer { outcome_bytes result ≡ answer_to (room self.old) desk.0 call.now (state self.old) }
        ensures state { state self.new ≡ after (room self.old) desk.0 call.now (state self.old) }
        ensures room { room self.new ≡ room self.old };

    // The hands of a desk are emptied.
    fn leave(&mut self, desk: DeskId)
        ensures state { state self.new ≡ leaves desk.0 (state self.old) }
        ensures room { room self.new ≡ room self.old };

    // How many things a desk has in hand.
    fn in_hand(&self, desk: DeskId) -> usize
        ensures { result ≡ in_hand desk.0 (state self.now) };
}
