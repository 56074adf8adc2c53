// What the house knows of the desks' sessions, and what becomes of what they say under them.
#![tactic(auto)]

mod incarnation;
pub mod peer;
pub mod place;
pub mod sessions;
