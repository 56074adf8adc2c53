// A message that the house sends.
use ids::DeskId;

#[derive(Clone, Copy)]
pub struct Sent<'a> {
    pub to: DeskId,
    pub bytes: &'a [u8],
}
