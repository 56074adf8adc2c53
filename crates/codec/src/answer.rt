// What a call is answered.
use crate::UnknownKind;
use ids::Edition;

// Why a call was turned away.
#[derive(Clone, Copy, Debug, PartialEq, Eq)]
pub enum Refusal {
    // a name, number or length out of range, a place beyond the end, bytes that are no call
    OutOfRange,
    // no such sheet, or not in hand
    Missing,
    // there is a sheet of that name already
    Present,
    // the sheet has another edition than expected
    OtherEdition,
    // another desk holds it
    InOthersHand,
    // 64 things are in hand, or all editions are used up
    UsedUp,
    // all sheets would weigh more than there is room for
    NoRoom,
    // eight calls wait at the desk
    EightWait,
    // the call is not built yet
    NotBuilt,
    // a number that has no meaning yet
    Other(u8),
}

// What a change that was done is answered.
#[derive(Clone, Copy, Debug, PartialEq, Eq)]
pub enum Changed {
    Yes,
    Edition(Edition),
}

// What became of a change: it was done, or turned away.
pub type Outcome = Result<Changed, Refusal>;

// `No` is one of its kinds, and no `Err` of a `Result`: the five kinds are the five first bytes of the layout.
#[derive(Clone, Copy, Debug, PartialEq, Eq)]
pub enum Answer<'a> {
    No(Refusal),
    Yes,
    Edition(Edition),
    Read {
        edition: Edition,
        whole: u32,
        bytes: &'a [u8],
    },
    // So many names, each with its length before it, one behind the other: a part of the message, since a list of them would take memory.
    Names {
        count: u16,
        names: &'a [u8],
    },
}

// The answer that eight calls wait, as bytes.
pub const EIGHT_WAIT: [u8; 2] = [0, 11];

// The first byte of an answer says which it is.
#[derive(Clone, Copy, Debug, PartialEq, Eq)]
pub enum AnswerKind {
    No = 0,
    Yes = 1,
    Edition = 2,
    Read = 3,
    Names = 4,
}

impl TryFrom<u8> for AnswerKind {
    ghost use Rattle.codec.specs.Answers.{BeginsAnswer};

    type Error = UnknownKind;

    ghost try_from_gives = { BeginsAnswer };

    fn try_from(number: u8) -> Result<AnswerKind, UnknownKind> {
        match number {
            0 => Ok(AnswerKind::No),
            1 => Ok(AnswerKind::Yes),
            2 => Ok(AnswerKind::Edition),
            3 => Ok(AnswerKind::Read),
            4 => Ok(AnswerKind::Names),
            _ => Err(UnknownKind(number)),
        }
    }
}

impl Answer<'_> {
    ghost use Rattle.std.specs.Prelude.{◌≡◌};
    ghost use Rattle.codec.specs.Answers.{answer_kind_number, answer_kind};

    pub(crate) fn kind(self) -> AnswerKind
        ensures { answer_kind_number result ≡ answer_kind self.entry }
    {
        match self {
            Answer::No(_) => AnswerKind::No,
            Answer::Yes => AnswerKind::Yes,
            Answer::Edition(_) => AnswerKind::Edition,
            Answer::Read { .. } => AnswerKind::Read,
            Answer::Names { .. } => AnswerKind::Names,
        }
    }
}

impl From<Outcome> for Answer<'_> {
    ghost use Rattle.std.specs.Prelude.{◌≡◌};
    ghost use Rattle.codec.specs.Answers.{answer_of};

    ghost from_gives = { λ outcome answer. answer ≡ answer_of outcome };

    fn from(outcome: Outcome) -> Self {
        match outcome {
            Ok(Changed::Yes) => Answer::Yes,
            Ok(Changed::Edition(edition)) => Answer::Edition(edition),
            Err(refusal) => Answer::No(refusal),
        }
    }
}
