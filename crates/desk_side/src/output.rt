// What comes to a desk, what it does then, and why it does not begin.
ghost use Rattle.std.specs.Prelude.{◌≡◌};
ghost use Rattle.desk_side.specs.declared.output.BeginError.TheVariants.{NoMemory};
ghost use Rattle.desk_side.specs.Begin.{no_parts};

use ids::{CallNumber, DeskId, SlotId};
use parts::lent::PartsError;
use std::alloc::AllocError;

#[derive(Clone, Copy)]
pub enum Event<'a> {
    Message { from: DeskId, bytes: &'a [u8] },
    Call { number: CallNumber, call: &'a [u8] },
    Tick,
}

// A message to the house, or an answer told under its call's number. Messages stand in the desk's memory.
#[derive(Clone, Copy)]
pub enum Output {
    Hello,
    Alive,
    // for the call that waits in this slot
    Request {
        slot: SlotId,
    },
    // so many bytes, from `start` on, of the message that came
    Tell {
        number: CallNumber,
        start: usize,
        len: usize,
    },
    // eight calls wait already
    Busy {
        number: CallNumber,
    },
}

#[derive(Clone, Copy, Debug, PartialEq, Eq)]
pub enum BeginError {
    // less than eight Requests with the longest call need
    LentTooLittle,
    // the retransmission time is 0, or above 50,000 ms
    RetryOutOfRange,
    NoMemory,
}

impl From<AllocError> for BeginError {
    ghost from_gives = { λ _ e. e ≡ NoMemory };

    fn from(_error: AllocError) -> BeginError {
        BeginError::NoMemory
    }
}

impl From<PartsError> for BeginError {
    ghost from_gives = { λ error e. e ≡ no_parts error };

    fn from(error: PartsError) -> BeginError {
        match error {
            PartsError::TooSmall => BeginError::LentTooLittle,
            PartsError::NoMemory => BeginError::NoMemory,
        }
    }
}
