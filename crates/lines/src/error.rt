// Why a line is none.
ghost use Rattle.std.specs.Prelude.{◌≡◌, Some};
ghost use Rattle.lines.specs.Errors.{error_text};

use std::error::Error;
use std::fmt;

#[derive(Clone, Copy, PartialEq, Eq, Debug)]
pub enum LineError {
    UnknownWord,
    MissingWord,
    ExtraWord,
    BadNumber,
    BadHex,
    // a word to be repeated that has a byte which cannot be seen
    BadWord,
    // the buffers are too small for the line
    NoRoom,
}

impl LineError {
    // What is said of such a line.
    pub fn text(self) -> &'static str
        ensures { result.now ≡ error_text self }
    {
        match self {
            LineError::UnknownWord => "unknown word",
            LineError::MissingWord => "a word is missing",
            LineError::ExtraWord => "a word too many",
            LineError::BadNumber => "a bad number",
            LineError::BadHex => "bad hexadecimal",
            LineError::BadWord => "a byte that cannot be seen",
            LineError::NoRoom => "too long",
        }
    }
}

impl fmt::Display for LineError {
    ghost output = { λ e. Some (error_text e) };

    fn fmt<W: fmt::Write>(&self, f: &mut fmt::Formatter<W>) -> fmt::Result {
        f.write_str(self.text())
    }
}

impl Error for LineError {}
