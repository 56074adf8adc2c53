// Names in order, walked without copying.
use crate::tables::Table;

// So many names, from an index on.
#[derive(Clone, Copy)]
pub struct Listing<'a> {
    pub(crate) table: &'a Table,
    pub(crate) next: usize,
    pub(crate) left: usize,
}

impl<'a> Iterator for Listing<'a> {
    type Item = &'a [u8];

    ghost use Rattle.std.specs.Iterator.{YieldsFirstRef, item_count};
    ghost use Rattle.table.specs.Tables.{listed};

    ghost next_gives = { YieldsFirstRef listed };

    ghost remaining = { item_count listed };

    // The next name, if there is one.
    fn next(&mut self) -> Option<&'a [u8]> {
        if self.left == 0 {
            return None;
        }
        let name = self.table.name(self.next)?;
        self.next += 1;
        self.left -= 1;
        Some(name)
    }
}
