// The table of sheets, in memory that is lent once: what each call answers and leaves.
#![tactic(auto)]

mod bytes;
mod compact;
mod heads;
mod kinds;
mod log;
mod lookup;
mod tables;

pub use codec::answer::{Changed, Outcome};
pub use kinds::Kind;
pub use tables::Table;
pub use tables::changes::Change;
pub use tables::listing::Listing;
pub use tables::queries::{Query, Reading};
