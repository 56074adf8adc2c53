// The table: a log of names and bytes, and the heads over it, by rising names.
ghost use Rattle.std.specs.Prelude.{◌≡◌, ◌+◌, ◌*◌, ◌<◌, ◌≤◌, true, vec_len, vec_capacity};
ghost use Rattle.promise.specs.Bytes.{every};
ghost use Rattle.promise.specs.Sheets.{weight};
ghost use Rattle.table.specs.View.{sheets_of, below, apart, rising};

use crate::heads::Head;

pub mod changes;
pub mod listing;
pub mod opening;
pub mod queries;
pub mod writing;

#[derive(Drop)]
pub struct Table {
    // names and bytes, one piece behind the other, in memory that is reserved once
    log: Vec<u8>,
    // a Vec and no map, which would ask for memory at each new name
    heads: Vec<Head>,
    // where pieces begin, with the indices of their heads, noted when the log is compacted: its memory too is reserved once
    spots: Vec<(usize, usize)>,
    // what all sheets together may weigh
    room: usize,
    // what all sheets together weigh
    load: usize,
    // how many puts and patches were done
    changes: u64,
    ghost inside: { every (below (vec_len log)) heads.items ≡ true },
    ghost pieces: { apart heads.items ≡ true },
    ghost sorted: { rising (sheets_of log.items heads.items) ≡ true },
    ghost weighed: { load ≡ weight (sheets_of log.items heads.items) },
    ghost light: { load ≤ room },
    ghost small: { room ≤ 268435456 },
    // beside the room there is always space for one piece more
    ghost wide: { room + 1048831 ≤ vec_capacity log },
    ghost held: { room < 512 * vec_capacity heads + 512 },
    ghost noted: { room < 512 * vec_capacity spots + 512 },
    ghost counted: { changes ≤ 4611686018427387904 },
}
