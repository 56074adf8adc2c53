// The house.
use crate::outbox::Outbox;
use sessions::sessions::Sessions;

#[derive(Drop)]
pub struct House<S> {
    pub(crate) sessions: Sessions,
    pub(crate) table: S,
    pub(crate) out: Outbox,
}
