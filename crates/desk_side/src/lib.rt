// A desk: what it knows, and what it does at each thing that comes.
#![tactic(auto)]

mod asks;
mod begin;
mod bytes;
mod calls;
pub mod desk;
mod greeting;
mod hears;
mod memory;
pub mod output;
mod outputs;
mod requests;
mod say;
mod slot;
mod state;
mod tells;
mod ticks;
mod turn;

pub use tells::told;
