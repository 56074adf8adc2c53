// A desk's incarnation, to which the house gave a session.
ghost use Rattle.std.specs.Prelude.{◌<◌};

use ids::{Nonce, Session};

#[derive(Clone, Copy)]
pub(crate) struct Incarnation {
    pub(crate) nonce: Nonce,
    pub(crate) session: Session,
    ghost given: { 0 < session.0 },
}
