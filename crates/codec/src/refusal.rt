// Refusals by number.
ghost use Rattle.std.specs.Prelude.{◌≡◌};
ghost use Rattle.codec.specs.Answers.{refusal_number, refusal_of};

use crate::answer::Refusal;

impl From<Refusal> for u8 {
    ghost from_gives = { λ refusal number. number ≡ refusal_number refusal };

    fn from(refusal: Refusal) -> u8 {
        match refusal {
            Refusal::OutOfRange => 1,
            Refusal::Missing => 2,
            Refusal::Present => 3,
            Refusal::OtherEdition => 4,
            Refusal::InOthersHand => 5,
            Refusal::UsedUp => 8,
            Refusal::NoRoom => 9,
            Refusal::EightWait => 11,
            Refusal::NotBuilt => 12,
            Refusal::Other(number) => number,
        }
    }
}

impl From<u8> for Refusal {
    ghost from_gives = { λ number refusal. (refusal ≡ refusal_of number) × (refusal_number refusal ≡ number) };

    fn from(number: u8) -> Refusal {
        match number {
            1 => Refusal::OutOfRange,
            2 => Refusal::Missing,
            3 => Refusal::Present,
            4 => Refusal::OtherEdition,
            5 => Refusal::InOthersHand,
            8 => Refusal::UsedUp,
            9 => Refusal::NoRoom,
            11 => Refusal::EightWait,
            12 => Refusal::NotBuilt,
            _ => Refusal::Other(number),
        }
    }
}
