// A house as it begins.
ghost use Rattle.std.specs.Prelude.{◌≡◌, [], IfOk};
ghost use Rattle.promise.specs.Sheets.{blank};
ghost use Rattle.asking.specs.House.{house_begins};
ghost use Rattle.house_side.specs.Tables.{machine};
ghost use Rattle.house_side.specs.Outs.{outs_of};
ghost use Rattle.house_side.specs.Minds.{mind_of};

use crate::draft::Draft;
use crate::house::House;
use crate::outbox::Outbox;
use crate::store::Store;
use ids::Clock;
use sessions::sessions::Sessions;
use std::alloc::{AllocError, Global};

const LONGEST_MESSAGE: usize = 1_048_631;

// Any desk may lapse at a tick.
const DESKS: usize = 63;

impl<S: Store + Drop> House<S> {
    // With the table that it keeps, from then on. All other memory is reserved here: two vectors, for the longest message and for 63 desks.
    pub fn begin(heap: Global, table: S, clock: Clock) -> Result<House<S>, AllocError>
        ensures table { IfOk result (λ h. h.table ≡ table) }
        ensures silent { IfOk result (λ h. outs_of h.out ≡ []) }
        ensures begins { IfOk result (λ h. S.Store.state table ≡ blank → mind_of S.Store.room S.Store.state h ≡ house_begins (machine (S.Store.room h.table)) clock.0) }
    {
        let bytes = Vec::with_capacity(heap, LONGEST_MESSAGE)?;
        let lapsed = Vec::with_capacity(heap, DESKS)?;
        let sessions = Sessions::begin(clock);
        Ok(House {
            sessions,
            table,
            out: Outbox {
                to: None,
                message: Draft { bytes },
                lapsed,
            },
        })
    }
}
