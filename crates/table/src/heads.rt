// What is known of each sheet beside its bytes.
use ids::Edition;

// Where a sheet lies in the log: its name and, right behind it, its bytes, in one piece.
#[derive(Clone, Copy)]
pub struct Head {
    // where the piece begins
    pub at: usize,
    // how long the name is
    pub width: usize,
    // how many bytes there are
    pub len: usize,
    // for how many bytes the piece has room
    pub size: usize,
    pub edition: Edition,
}

impl Head {
    ghost use Rattle.std.specs.Prelude.{◌≡◌, true, length};
    ghost use Rattle.table.specs.View.{below, sheet_of};

    // The name of the sheet, in the memory where its piece lies.
    pub fn name<'a>(&self, mem: &'a [u8]) -> &'a [u8]
        requires { below (length mem.now) self.now ≡ true }
        ensures { result.now ≡ (sheet_of mem.now self.now).name }
    {
        &mem[self.at..self.at + self.width]
    }

    // The bytes of the sheet.
    pub fn bytes<'a>(&self, mem: &'a [u8]) -> &'a [u8]
        requires { below (length mem.now) self.now ≡ true }
        ensures { result.now ≡ (sheet_of mem.now self.now).bytes }
    {
        let from = self.at + self.width;
        &mem[from..from + self.len]
    }
}
