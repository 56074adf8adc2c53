// The log compacted: pieces slide down, in the order in which they lie, until there is nothing between them.
ghost use Rattle.std.specs.Prelude.{◌≡◌, ◌≤◌, true, length, vec_len, vec_capacity};
ghost use Rattle.promise.specs.Bytes.{every};
ghost use Rattle.table.specs.View.{below, apart};
ghost use Rattle.table.specs.Packing.{Ordered, Packed, Compacted};

use crate::heads::Head;

// Notes where each piece begins, with the index of its head, in the order of the log.
fn arrange(heads: &[Head], spots: &mut Vec<(usize, usize)>)
    requires { length heads.now ≤ vec_capacity spots.old }
    ensures ordered { Ordered heads.now spots.new.items }
    ensures capacity { vec_capacity spots.new ≡ vec_capacity spots.old }
{
    spots.clear();
    for (i, head) in heads.iter().enumerate() {
        spots.push_reserved((head.at, i));
    }
    spots.sort_unstable();
}

// Slides all pieces down in that order, and answers how much of the log they take then.
fn pack(mem: &mut [u8], heads: &mut [Head], spots: &[(usize, usize)]) -> usize
    requires inside { every (below (length mem.old)) heads.old ≡ true }
    requires pieces { apart heads.old ≡ true }
    requires ordered { Ordered heads.old spots.now }
    ensures { Packed mem.old heads.old mem.new heads.new result }
{
    let mut to = 0;
    let mut edge = 0;
    for &(_, i) in spots {
        let h = heads[i];
        // below the edge lies what was moved already
        if h.at < edge {
            continue;
        }
        let n = h.width + h.len;
        mem.copy_within(h.at..h.at + n, to);
        heads[i] = Head {
            at: to,
            size: h.len,
            ..h
        };
        edge = h.at + h.width + h.size;
        to += n;
    }
    to
}

// Compacts the log.
pub fn compact(log: &mut Vec<u8>, heads: &mut Vec<Head>, spots: &mut Vec<(usize, usize)>)
    requires inside { every (below (vec_len log.old)) heads.old.items ≡ true }
    requires pieces { apart heads.old.items ≡ true }
    requires free { vec_len heads.old ≤ vec_capacity spots.old }
    ensures packed { Compacted log.old.items heads.old.items log.new.items heads.new.items }
    ensures log { vec_capacity log.new ≡ vec_capacity log.old }
    ensures heads { vec_capacity heads.new ≡ vec_capacity heads.old }
    ensures spots { vec_capacity spots.new ≡ vec_capacity spots.old }
{
    arrange(heads.as_slice(), spots);
    let used = pack(log.as_mut_slice(), heads.as_mut_slice(), spots.as_slice());
    log.truncate(used);
}
