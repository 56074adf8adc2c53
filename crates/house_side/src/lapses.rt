// Desks that hold something and were silent for too long.
ghost use Rattle.std.specs.Prelude.{◌≡◌, ◌&&◌, map};
ghost use Rattle.asking.specs.House.{is_silent};
ghost use Rattle.sessions.specs.Desks.{is_desk};
ghost use Rattle.sessions.specs.Views.{known};
ghost use Rattle.house_side.specs.Houses.{house_of};
ghost use Rattle.house_side.specs.Outs.{outs_of, lapse_of};
ghost use Rattle.house_side.specs.Lapses.{number, silent_from, emptied};

use crate::outbox::Outbox;
use crate::store::Store;
use ids::{Clock, DeskId};
use sessions::place::Place;
use sessions::sessions::Sessions;

fn is_lapsed<S: Store>(table: &S, sessions: &Sessions, clock: Clock, desk: DeskId) -> bool
    ensures { result ≡ (is_desk desk.0 && is_silent clock.0 (house_of (S.Store.room table.now) (S.Store.state table.now) (known sessions.now)) desk.0) }
{
    Place::try_from(desk).is_ok_and(|place| 0 < table.in_hand(desk)
        && sessions.is_silent(place, clock))
}

impl Outbox {
    // Nothing is said but who has lapsed, by rising numbers.
    #[tactic(auto, unfolding(crate::specs::Lapses::silent_from))]
    pub(crate) fn lapse<S: Store>(&mut self, table: &S, sessions: &Sessions, clock: Clock)
        ensures says { outs_of self.new ≡ map lapse_of self.new.lapsed.items }
        ensures desks { map number self.new.lapsed.items ≡ silent_from clock.0 (house_of (S.Store.room table.now) (S.Store.state table.now) (known sessions.now)) 1 63 }
    {
        self.to = None;
        self.lapsed.clear();
        for number in 1..64 {
            let desk = DeskId(number);
            if is_lapsed(table, sessions, clock, desk) {
                self.lapsed.push_reserved(desk);
            }
        }
    }
}

// The hands of those who have lapsed are emptied, the last one's first.
#[tactic(auto, using(crate::proofs::Ticks::emptied_last), unfolding(crate::specs::Lapses::emptied))]
pub(crate) fn empty_hands<S: Store>(table: &mut S, lapsed: &[DeskId])
    ensures state { S.Store.state table.new ≡ emptied (map number lapsed.now) (S.Store.state table.old) }
    ensures room { S.Store.room table.new ≡ S.Store.room table.old }
{
    for desk in lapsed.iter().rev() {
        table.leave(*desk);
    }
}
