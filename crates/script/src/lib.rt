// The steps of a script that `rehearse` plays, out of lines.
#![tactic(auto)]

pub mod read;
pub mod step;
