// What comes to the house.
use ids::DeskId;

#[derive(Clone, Copy)]
pub enum Event<'a> {
    // bytes that came from somebody: a message, or noise
    Message { from: DeskId, bytes: &'a [u8] },
    // a beat of the clock
    Tick,
}
