// Names looked up among heads by rising names.
ghost use Rattle.std.specs.Prelude.{◌≡◌, ◌+◌, ◌<◌, ◌≤◌, length, slice_index_or};
ghost use Rattle.table.specs.View.{Sound, Finding, rank, blank_sheet};

use crate::heads::Head;

// Heads by rising names, and the memory in which their pieces lie.
#[derive(Clone, Copy)]
pub struct Sheets<'a> {
    pub mem: &'a [u8],
    pub heads: &'a [Head],
    ghost sound: { Sound mem.now heads.now },
}

impl<'a> Sheets<'a> {
    ghost use Rattle.table.specs.Tables.{sheets_in};

    // The name of the sheet at an index.
    fn name(&self, i: usize) -> &'a [u8]
        requires { i < length self.now.heads.now }
        ensures { result.now ≡ (slice_index_or (sheets_in self.now) i blank_sheet).name }
    {
        self.heads[i].name(self.mem)
    }

    // Halves down to a stretch of at most 16 heads: the rank of the name is in it or at its end.
    // (`partition_point` halves down to one head, and would leave no names to walk: that they are walked is a rule here, named in `rank_of`.)
    fn narrow(&self, name: &[u8]) -> (usize, usize)
        ensures low { result.0 ≤ rank name.now (sheets_in self.now) }
        ensures high { rank name.now (sheets_in self.now) ≤ result.1 }
        ensures within { result.1 ≤ length self.now.heads.now }
        ensures short { result.1 ≤ result.0 + 16 }
    {
        let mut lo = 0;
        let mut hi = self.heads.len();
        while hi - lo > 16 {
            let mid = lo + (hi - lo) / 2;
            if self.name(mid) < name {
                lo = mid + 1;
            } else {
                hi = mid;
            }
        }
        (lo, hi)
    }

    // The index of the first name that does not come before `name`.
    fn rank_of(&self, name: &[u8]) -> usize
        ensures { result ≡ rank name.now (sheets_in self.now) }
    {
        let (lo, hi) = self.narrow(name);
        let mut index = hi;
        // names are walked by a labelled loop, left at the first that is after: docs/DECISIONS.md, "Code forms"
        'names: for i in lo..hi {
            if name <= self.name(i) {
                index = i;
                break 'names;
            }
        }
        index
    }

    // Where a name stands, or else where it would: what is found there, and what a change of a sheet of that name does.
    pub fn seek(&self, name: &[u8]) -> Result<usize, usize>
        ensures { Finding (sheets_in self.now) name.now result }
    {
        let index = self.rank_of(name);
        match self.heads.get(index) {
            Some(head) if head.name(self.mem) == name => Ok(index),
            _ => Err(index),
        }
    }
}
