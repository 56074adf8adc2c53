// How the table's parts change: sheets laid, filled, moved and forgotten.
ghost use Rattle.std.specs.Prelude.{◌≡◌, ◌+◌, ◌*◌, ◌<◌, ◌≤◌, max, true, IsErr, [], length, vec_len, vec_capacity};
ghost use Rattle.std.specs.List.{remove};
ghost use Rattle.std.specs.List.Sorted.{IsSearchInRange};
ghost use Rattle.table.specs.View.{rising, laid};
ghost use Rattle.table.specs.Tables.{state_of, room_of, HasSheet, HasPlace, sheet_in, size_in, new_sheet, filled, edited, Admits, FitsSheet, Becomes};

use crate::compact::compact;
use crate::heads::Head;
use crate::log::{append, copy_behind, overwrite};
use crate::tables::Table;
use ids::Edition;

// Sets the head at a place, or makes space for it there.
fn enter(heads: &mut Vec<Head>, place: Result<usize, usize>, head: Head)
    requires within { IsSearchInRange place (vec_len heads.old) }
    requires free { IsErr place → vec_len heads.old < vec_capacity heads.old }
    ensures items { heads.new.items ≡ laid heads.old.items place head }
    ensures capacity { vec_capacity heads.old ≤ vec_capacity heads.new }
{
    match place {
        Ok(i) => heads[i] = head,
        // no memory is asked for, so nothing can fail
        Err(i) => heads.insert(i, head).unwrap(),
    }
}

// (An index, a place and what is admitted are those of the table as a method finds it: a type for any of them would have to borrow the
// table, which these methods change. So each contract asks for what it needs.)
impl Table {
    // Lays a sheet at a place, written behind all others.
    pub(crate) fn append(&mut self, place: Result<usize, usize>, name: &[u8], bytes: &[u8])
        requires within { HasPlace self.old place }
        requires fits { FitsSheet name.now bytes.now }
        requires free { vec_len self.old.log + length name.now + length bytes.now ≤ vec_capacity self.old.log }
        requires sorted { rising (laid (state_of self.old).sheets place (new_sheet name.now bytes.now (state_of self.old))) ≡ true }
        requires admitted { Admits (room_of self.old) (state_of self.old) (laid (state_of self.old).sheets place (new_sheet name.now bytes.now (state_of self.old))) }
        ensures { Becomes self.old self.new (edited (laid (state_of self.old).sheets place (new_sheet name.now bytes.now (state_of self.old))) (state_of self.old)) }
    {
        let at = self.log.len();
        let width = name.len();
        let len = bytes.len();
        let load = self.weigh(place, len);
        let count = self.changes + 1;
        append(&mut self.log, name);
        append(&mut self.log, bytes);
        enter(
            &mut self.heads,
            place,
            Head {
                at,
                width,
                len,
                size: len,
                edition: Edition(count),
            },
        );
        self.load = load;
        self.changes = count;
    }

    // Compacts the log.
    fn tidy(&mut self)
        ensures same { Becomes self.old self.new (state_of self.old) }
        ensures capacity { vec_capacity self.new.log ≡ vec_capacity self.old.log }
        ensures load { self.new.load ≡ self.old.load }
        ensures small { vec_len self.new.log + 257 * length (state_of self.new).sheets ≤ self.new.load }
    {
        compact(&mut self.log, &mut self.heads, &mut self.spots);
    }

    // Makes way in the log for a piece.
    pub(crate) fn make_way(&mut self, need: usize)
        requires { need ≤ 1048831 }
        ensures same { Becomes self.old self.new (state_of self.old) }
        ensures free { vec_len self.new.log + need ≤ vec_capacity self.new.log }
    {
        if self.log.capacity() - self.log.len() < need {
            self.tidy();
        }
    }

    // Takes the sheet at an index out.
    pub(crate) fn forget(&mut self, i: usize)
        requires { HasSheet self.old i }
        ensures { Becomes self.old self.new (record { sheets = remove (state_of self.old).sheets i; holds = []; changes' = self.old.changes }) }
    {
        let h = self.head(i);
        self.heads.remove(i);
        self.load -= 512 + h.len;
    }

    // Writes bytes into the piece of a sheet, which has so many bytes then.
    pub(crate) fn fill(&mut self, i: usize, offset: usize, bytes: &[u8], len: usize)
        requires within { HasSheet self.old i }
        requires fits { len ≤ size_in self.old i }
        requires begun { offset ≤ length (sheet_in (state_of self.old) i).bytes }
        requires whole { offset + length bytes.now ≤ len }
        requires known { len ≤ max (length (sheet_in (state_of self.old) i).bytes) (offset + length bytes.now) }
        requires admitted { Admits (room_of self.old) (state_of self.old) (filled i offset bytes.now len (state_of self.old)) }
        ensures { Becomes self.old self.new (edited (filled i offset bytes.now len (state_of self.old)) (state_of self.old)) }
    {
        let h = self.head(i);
        let load = self.weigh(Ok(i), len);
        let count = self.changes + 1;
        overwrite(&mut self.log, h.at + h.width + offset, bytes);
        self.heads[i] = Head {
            len,
            edition: Edition(count),
            ..h
        };
        self.load = load;
        self.changes = count;
    }

    // Moves the piece of a sheet to the end of the log, with room for so many bytes.
    pub(crate) fn relocate(&mut self, i: usize, size: usize)
        requires within { HasSheet self.old i }
        requires holds { length (sheet_in (state_of self.old) i).bytes ≤ size }
        requires small { size ≤ 1048576 }
        requires free { vec_len self.old.log + (length (sheet_in (state_of self.old) i).name + size) ≤ vec_capacity self.old.log }
        ensures same { Becomes self.old self.new (state_of self.old) }
        ensures size { size_in self.new i ≡ size }
    {
        let h = self.head(i);
        let at = self.log.len();
        copy_behind(&mut self.log, h.at, h.width + h.len, h.width + size);
        self.heads[i] = Head { at, size, ..h };
    }

    // Sees to it that the piece of a sheet has room for so many bytes, and as many again for what is added later.
    pub(crate) fn make_fit(&mut self, i: usize, len: usize)
        requires within { HasSheet self.old i }
        requires holds { length (sheet_in (state_of self.old) i).bytes ≤ len }
        requires small { len ≤ 1048576 }
        ensures same { Becomes self.old self.new (state_of self.old) }
        ensures fits { len ≤ size_in self.new i }
    {
        let h = self.head(i);
        if len <= h.size {
            return;
        }
        let size = (2 * len).min(1048576);
        self.make_way(h.width + size);
        self.relocate(i, size);
    }
}
