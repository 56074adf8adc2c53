// Lines out of chunks of input, in memory that is reserved once.
#![tactic(auto)]

mod lines;

pub use lines::LineBuffer;
