// Equal parts of lent memory: strings of bytes, each with a head of fixed length and a body behind it, that are written in place.
#![tactic(auto)]

pub mod lent;
