// The lines that house and desks print.
#![tactic(auto)]

pub mod print;
pub mod told;
