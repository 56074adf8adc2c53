// A call, as the table is asked for it. Names and bytes are parts of the message that it came in.
use crate::UnknownKind;
use ids::Edition;

// Which edition a change expects its sheet to have; edition 0 is a sheet that isn't there.
// An enum inside that of a call: docs/DECISIONS.md, "Code forms"; and the `None` of an `Option` would read as no sheet.
#[derive(Clone, Copy, Debug, PartialEq, Eq)]
pub enum Expect {
    Any,
    Just(Edition),
}

#[derive(Clone, Copy, Debug, PartialEq, Eq)]
pub enum Call<'a> {
    Read {
        name: &'a [u8],
        start: u32,
        most: u32,
    },
    Put {
        name: &'a [u8],
        expect: Expect,
        bytes: &'a [u8],
    },
    Patch {
        name: &'a [u8],
        at: u32,
        expect: Expect,
        bytes: &'a [u8],
    },
    Remove {
        name: &'a [u8],
        expect: Expect,
    },
    Rename {
        name: &'a [u8],
        new: &'a [u8],
    },
    Names {
        after: &'a [u8],
        most: u16,
    },
    Take {
        name: &'a [u8],
        alone: bool,
    },
    LetGo {
        name: &'a [u8],
    },
}

// The first byte of a call says which it is.
#[derive(Clone, Copy, Debug, PartialEq, Eq)]
pub enum Kind {
    Read = 1,
    Put = 2,
    Patch = 3,
    Remove = 4,
    Rename = 5,
    Names = 6,
    Take = 7,
    LetGo = 8,
}

impl TryFrom<u8> for Kind {
    ghost use Rattle.codec.specs.Calls.{BeginsCall};

    type Error = UnknownKind;

    ghost try_from_gives = { BeginsCall };

    fn try_from(number: u8) -> Result<Kind, UnknownKind> {
        match number {
            1 => Ok(Kind::Read),
            2 => Ok(Kind::Put),
            3 => Ok(Kind::Patch),
            4 => Ok(Kind::Remove),
            5 => Ok(Kind::Rename),
            6 => Ok(Kind::Names),
            7 => Ok(Kind::Take),
            8 => Ok(Kind::LetGo),
            _ => Err(UnknownKind(number)),
        }
    }
}

impl<'a> Call<'a> {
    ghost use Rattle.std.specs.Prelude.{◌≡◌};
    ghost use Rattle.codec.specs.Calls.{call_of, kind_of};
    ghost use Rattle.codec.specs.CallParts.{name_of};

    pub(crate) fn kind(self) -> Kind
        ensures { result ≡ kind_of self.entry }
    {
        match self {
            Call::Read { .. } => Kind::Read,
            Call::Put { .. } => Kind::Put,
            Call::Patch { .. } => Kind::Patch,
            Call::Remove { .. } => Kind::Remove,
            Call::Rename { .. } => Kind::Rename,
            Call::Names { .. } => Kind::Names,
            Call::Take { .. } => Kind::Take,
            Call::LetGo { .. } => Kind::LetGo,
        }
    }

    // Each call has a name in front.
    pub(crate) fn name(self) -> &'a [u8]
        ensures { result.now ≡ name_of (call_of self.entry) }
    {
        match self {
            Call::Read { name, .. }
            | Call::Put { name, .. }
            | Call::Patch { name, .. }
            | Call::Remove { name, .. }
            | Call::Rename { name, .. }
            | Call::Names { after: name, .. }
            | Call::Take { name, .. }
            | Call::LetGo { name } => name,
        }
    }
}
