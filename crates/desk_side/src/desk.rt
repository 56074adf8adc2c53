// A desk.
use crate::memory::Memory;

// retry: the retransmission time in ms. It stands here and not in `Asking`, which is what turns change.
#[derive(Drop)]
pub struct Desk {
    pub(crate) retry: u64,
    pub(crate) memory: Memory,
}
