// The words of a line: decimal numbers, bytes in hexadecimal, names, and the words themselves between single spaces.
#![tactic(auto)]

pub mod decimal;
pub mod hex;
pub mod name;
pub mod room;
pub mod word;
