// What the programs are told on their command line, out of the numbers that stand there.
#![tactic(auto)]

ghost use Rattle.std.specs.Prelude.{◌≡◌, Some};
ghost use Rattle.settings.specs.Given.{house_given, desk_given, count_given, wrong_text};

use ids::{DeskId, Nonce};
use std::error::Error;
use std::fmt;

// How much memory a house lends itself if it is not told: room for 256 MiB of sheets.
pub const HOUSE_BYTES: u64 = 536_870_912;
// How much memory a desk lends itself if it is not told: room for eight of the largest calls.
pub const DESK_BYTES: u64 = 16_777_216;
// The retransmission time in ms if a desk is not told: nothing is asked twice while no message is later than 10,000 ms. Crate asking proves
// that of `usual_retransmission`; the number stands here too, since its contract says what holds of the time, and not which it is.
pub const RETRY: u64 = 20_300;
// No retransmission time is longer, so that two minutes are enough: asking's `longest_retransmission`, as a constant for the same reason.
pub const LONGEST_RETRY: u64 = 50_000;

// `house [BYTES]`
#[derive(Clone, Copy)]
pub struct HouseSettings {
    pub bytes: u64,
}

// `desk N C [BYTES [RETRY]]`
#[derive(Clone, Copy)]
pub struct DeskSettings {
    pub desk: DeskId,
    pub nonce: Nonce,
    pub bytes: u64,
    pub retry: u64,
}

// What is wrong with the arguments.
#[derive(Clone, Copy, Debug, PartialEq, Eq)]
pub enum Wrong {
    // too few or too many of them
    Count,
    // a desk's number is 1 to 63
    Desk,
    // a retransmission time is 1 to 50,000 ms
    Retry,
}

impl Wrong {
    // What is said of such arguments.
    pub fn text(self) -> &'static str
        ensures { result.now ≡ wrong_text self }
    {
        match self {
            Wrong::Count => "too few or too many arguments",
            Wrong::Desk => "a desk's number is 1 to 63",
            Wrong::Retry => "a retransmission time is 1 to 50000 ms",
        }
    }
}

impl fmt::Display for Wrong {
    ghost output = { λ wrong. Some (wrong_text wrong) };

    fn fmt<W: fmt::Write>(&self, f: &mut fmt::Formatter<W>) -> fmt::Result {
        f.write_str(self.text())
    }
}

impl Error for Wrong {}

pub fn house_settings(args: &[u64]) -> Result<HouseSettings, Wrong>
    ensures { result ≡ house_given args.now }
{
    match args {
        [] => Ok(HouseSettings { bytes: HOUSE_BYTES }),
        [bytes] => Ok(HouseSettings { bytes: *bytes }),
        _ => Err(Wrong::Count),
    }
}

// The settings of a desk, if its number and retransmission time are in range.
fn desk_within(number: u64, nonce: u64, bytes: u64, retry: u64) -> Result<DeskSettings, Wrong>
    ensures { result ≡ desk_given number nonce bytes retry }
{
    if !(1..=63).contains(&number) {
        return Err(Wrong::Desk);
    }
    if !(1..=LONGEST_RETRY).contains(&retry) {
        return Err(Wrong::Retry);
    }
    Ok(DeskSettings {
        desk: DeskId(number as u8),
        nonce: Nonce(nonce),
        bytes,
        retry,
    })
}

pub fn desk_settings(args: &[u64]) -> Result<DeskSettings, Wrong>
    ensures { result ≡ count_given args.now }
{
    match args {
        [number, nonce] => desk_within(*number, *nonce, DESK_BYTES, RETRY),
        [number, nonce, bytes] => desk_within(*number, *nonce, *bytes, RETRY),
        [number, nonce, bytes, retry] => desk_within(*number, *nonce, *bytes, *retry),
        _ => Err(Wrong::Count),
    }
}
