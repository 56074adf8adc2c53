// The house: what it does at each thing that comes.
#![tactic(auto)]

mod draft;
pub mod event;
pub mod house;
mod lapses;
mod opening;
pub mod outbox;
mod running;
pub mod sent;
pub mod store;
mod turns;
