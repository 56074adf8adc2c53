// What a desk decided to say.
use crate::slot::{Place, Which};
use ids::CallNumber;

#[derive(Clone, Copy)]
pub(crate) enum Say {
    Hello,
    Alive,
    // a Request for the call that waits in this place
    Request {
        place: Place,
    },
    // a Request for each call that waits and is to be asked for
    Requests {
        which: Which,
    },
    // so many bytes, from `start` on, of the message that came
    Tell {
        number: CallNumber,
        start: usize,
        len: usize,
    },
    Busy {
        number: CallNumber,
    },
}
