// What a line says, with its names and bytes in buffers beside it.
ghost use Rattle.std.specs.Prelude.{◌≡◌, vec_capacity};

use codec::call::Expect;
use ids::{CallNumber, Clock};

// A call without its names and bytes.
#[derive(Clone, Copy)]
pub enum Form {
    Read { start: u32, most: u32 },
    Put { expect: Expect },
    Patch { at: u32, expect: Expect },
    Remove { expect: Expect },
    Rename,
    Names { most: u16 },
    Take { alone: bool },
    LetGo,
}

// A line without its names and bytes, which are in the buffers.
#[derive(Clone, Copy)]
pub enum Shape {
    Clock(Clock),
    // who it is from
    From(u64),
    Beat,
    Light,
    // its word is in the buffer for bytes
    Sync,
    // a call that cannot be put into bytes has no form
    Asked(CallNumber, Option<Form>),
}

// Where names and bytes of a line are written: two names, each with room for the longest, and bytes.
// The room for bytes differs from one to the next, so that no invariant can name it: that it stays is said by each function that is lent the
// buffers, as what a `&mut` leaves is said where it is taken.
#[derive(Drop)]
pub struct Scratch {
    pub(crate) name: Vec<u8>,
    pub(crate) other: Vec<u8>,
    pub(crate) bytes: Vec<u8>,
    ghost name_room: { vec_capacity name ≡ 255 },
    ghost other_room: { vec_capacity other ≡ 255 },
}
