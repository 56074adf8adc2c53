// How a desk begins.
use crate::calls::LONGEST_CALL;
use crate::desk::Desk;
use crate::greeting::Greeting;
use crate::memory::Memory;
use crate::output::BeginError;
use crate::outputs::Outputs;
use crate::requests::Requests;
use crate::slot::SLOTS;
use crate::state::Asking;
use ids::{Clock, Nonce};
use parts::lent::Parts;
use std::alloc::Global;

// How many bytes stand before the call in a Request.
const REQUEST_HEAD: usize = 30;

// A Request with the longest call for each slot.
const NEEDED: usize = SLOTS * (REQUEST_HEAD + LONGEST_CALL);

// The longest retransmission time, in milliseconds.
const LONGEST_RETRY: u64 = 50_000;

impl Desk {
    ghost use Rattle.desk_side.specs.Turns.{Begins};

    // lent: how much memory it may have; retry: the retransmission time in ms.
    pub fn begin(
        heap: Global,
        lent: usize,
        nonce: Nonce,
        retry: u64,
        clock: Clock,
    ) -> Result<Desk, BeginError>
        ensures { Begins lent retry nonce clock result }
    {
        if lent < NEEDED {
            return Err(BeginError::LentTooLittle);
        }
        if retry == 0 || retry > LONGEST_RETRY {
            return Err(BeginError::RetryOutOfRange);
        }
        let parts = Parts::begin(heap, NEEDED, SLOTS, REQUEST_HEAD)?;
        let memory = Memory {
            asking: Asking::begin(nonce, clock),
            requests: Requests { parts },
            greeting: Greeting::new(heap)?,
            outputs: Outputs::new(heap)?,
        };
        Ok(Desk { retry, memory })
    }
}
