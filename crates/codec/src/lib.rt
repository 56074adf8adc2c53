// Calls, answers and messages as bytes: nothing else knows a byte layout.
#![tactic(auto)]

pub mod answer;
mod answer_reader;
mod answer_writer;
mod append;
mod bytes;
pub mod call;
mod call_reader;
mod call_writer;
pub mod frame;
mod refusal;

ghost use Rattle.std.specs.Prelude.{◌++◌, Some, codes, decimal};

pub use answer_reader::read_answer;
pub use answer_writer::write_answer;
pub use bytes::{Number, read_name as next_name, read_number};
pub use call_reader::read_call;
pub use call_writer::write_call;
pub use frame::{read_frame, write_frame};
use std::error::Error;
use std::fmt;

// There is not room enough for what is to be written, or a length is too long for its field.
#[derive(Clone, Copy, Debug, PartialEq, Eq)]
pub struct DoesNotFit;

impl fmt::Display for DoesNotFit {
    ghost output = { λ _. Some (codes "it does not fit") };

    fn fmt<W: fmt::Write>(&self, f: &mut fmt::Formatter<W>) -> fmt::Result {
        f.write_str("it does not fit")
    }
}

impl Error for DoesNotFit {}

// A first byte by which nothing begins.
#[derive(Clone, Copy, Debug, PartialEq, Eq)]
pub struct UnknownKind(pub u8);

impl fmt::Display for UnknownKind {
    ghost output = { λ kind. Some (codes "nothing begins by the byte " ++ decimal kind.0) };

    fn fmt<W: fmt::Write>(&self, f: &mut fmt::Formatter<W>) -> fmt::Result {
        write!(f, "nothing begins by the byte {}", self.0)
    }
}

impl Error for UnknownKind {}
