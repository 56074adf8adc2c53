// What kind of message it is. Its number stands in the message.
ghost use Rattle.std.specs.Prelude.{◌≡◌};

use codec::UnknownKind;

#[derive(Clone, Copy)]
pub(crate) enum Kind {
    Hello = 1,
    Welcome = 2,
    Request = 3,
    Response = 4,
    Alive = 5,
}

impl Kind {
    ghost use Rattle.messages.specs.Kinds.{kind_number};

    pub(crate) fn number(self) -> u8
        ensures { result ≡ kind_number self }
    {
        self as u8
    }
}

impl TryFrom<u8> for Kind {
    type Error = UnknownKind;

    ghost use Rattle.messages.specs.Kinds.{IsKind};

    ghost try_from_gives = { IsKind };

    fn try_from(number: u8) -> Result<Kind, UnknownKind> {
        match number {
            1 => Ok(Kind::Hello),
            2 => Ok(Kind::Welcome),
            3 => Ok(Kind::Request),
            4 => Ok(Kind::Response),
            5 => Ok(Kind::Alive),
            _ => Err(UnknownKind(number)),
        }
    }
}
