// An empty table.
ghost use Rattle.std.specs.Prelude.{IfOk};
ghost use Rattle.table.specs.Tables.{IsBegun};
ghost use Rattle.laws.specs.Laws.{TableLaws};
ghost use Rattle.laws.specs.Cases.{CasesAnswered};

use crate::tables::Table;
use std::alloc::{AllocError, Global};

impl Table {
    // An empty table. Its log and its heads take at most `lent` bytes together, beside space for one piece; nothing is allocated later. What
    // calls do from here on is tidy, keeps what is held, reads what was put, and leaves all as it was where it is turned away.
    #[tactic(auto, using(laws::proofs::Laws::table_laws, laws::proofs::Worked::cases_answered))]
    pub fn begin(heap: Global, lent: usize) -> Result<Table, AllocError>
        ensures empty { IfOk result (IsBegun lent) }
        ensures laws { TableLaws }
        ensures cases { CasesAnswered }
    {
        let room = (lent / 2).min(268435456);
        let count = room / 512;
        let log = Vec::with_capacity(heap, (lent - 64 * count).min(536870912) + 1048831)?;
        let heads = Vec::with_capacity(heap, count)?;
        let spots = Vec::with_capacity(heap, count)?;
        Ok(Table {
            log,
            heads,
            spots,
            room,
            load: 0,
            changes: 0,
        })
    }
}
