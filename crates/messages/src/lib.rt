// What house and desks say to each other, as bytes, with a sum by which noise is told from messages.
#![tactic(auto)]

mod kind;
mod message;
mod put;
mod reader;
mod seal;
mod sum;
mod writer;

pub use message::Message;
pub use reader::read_message;
pub use seal::{seal_request, seal_response};
pub use writer::write_message;
