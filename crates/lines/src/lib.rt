// The lines that house and desks read.
#![tactic(auto)]

pub(crate) mod call;
pub mod error;
pub mod event;
pub(crate) mod field;
pub mod scratch;
pub mod shape;
