// The place of a desk among those that the house knows.
ghost use Rattle.std.specs.Prelude.{◌≡◌, ◌<◌, true, false, MatchResult};
ghost use Rattle.sessions.specs.Desks.{is_desk};

use ids::DeskId;

// A desk's number, 1 to 63.
#[derive(Clone, Copy)]
pub struct Place {
    pub(crate) desk: DeskId,
    ghost above: { 0 < desk.0 },
    ghost below: { desk.0 < 64 },
}

// There is no desk of this number.
#[derive(Clone, Copy, Debug, PartialEq, Eq)]
pub struct NoSuchDesk(pub DeskId);

impl TryFrom<DeskId> for Place {
    type Error = NoSuchDesk;

    ghost try_from_gives = { λ d r. MatchResult r (λ p. (is_desk d.0 ≡ true) × (p.desk ≡ d)) (λ e. (is_desk d.0 ≡ false) × (e.0 ≡ d)) };

    fn try_from(desk: DeskId) -> Result<Place, NoSuchDesk> {
        if (1..64).contains(&desk.0) {
            Ok(Place { desk })
        } else {
            Err(NoSuchDesk(desk))
        }
    }
}

impl Place {
    pub fn desk(self) -> DeskId
        ensures { result ≡ self.desk }
    {
        self.desk
    }

    pub(crate) fn index(self) -> usize
        ensures value { result ≡ self.desk.0 }
        ensures bound { result < 64 }
    {
        usize::from(self.desk.0)
    }
}
