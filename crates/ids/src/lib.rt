// Numbers that a type keeps apart.
#![tactic(auto)]

// A desk, 1 to 63; 0 is the house.
#[derive(Clone, Copy, Debug, PartialEq, Eq)]
pub struct DeskId(pub u8);

// Drawn by chance when a desk comes: it names one incarnation of one desk.
#[derive(Clone, Copy, Debug, PartialEq, Eq)]
pub struct Nonce(pub u64);

// Given out by the house to one incarnation of a desk; 0 is none.
#[derive(Clone, Copy, Debug, PartialEq, Eq)]
pub struct Session(pub u64);

// The place of a waiting call at its desk, 0 to 7.
#[derive(Clone, Copy, Debug, PartialEq, Eq)]
pub struct SlotId(pub u8);

// Counts the calls of one slot.
#[derive(Clone, Copy, Debug, PartialEq, Eq, PartialOrd, Ord)]
pub struct Seq(pub u64);

// Names what was lent with an answer; 0 is nothing.
#[derive(Clone, Copy, Debug, PartialEq, Eq)]
pub struct Grant(pub u64);

// Which put or patch, of all that were ever done on the table, was a sheet's last.
#[derive(Clone, Copy, Debug, PartialEq, Eq, PartialOrd, Ord)]
pub struct Edition(pub u64);

// What a clock shows, in milliseconds.
#[derive(Clone, Copy, Debug, PartialEq, Eq, PartialOrd, Ord)]
pub struct Clock(pub u64);

// The number under which a call was made at its desk.
#[derive(Clone, Copy, Debug, PartialEq, Eq)]
pub struct CallNumber(pub u64);

// Which request of a desk: under which session, in which slot, and the how manyth call of that slot.
#[derive(Clone, Copy, Debug, PartialEq, Eq)]
pub struct RequestId {
    pub session: Session,
    pub slot: SlotId,
    pub seq: Seq,
}
