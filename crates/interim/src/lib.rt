// What serves in the place of house and desks until sessions are joined to the programs: a clock, calls that wait, and what both do alike.
#![tactic(auto)]

mod alike;
mod clock;
mod waiting;

pub use alike::handle;
pub use clock::{GoesBack, MonotonicClock};
pub use waiting::Waiting;
