// What is told under a call's number.
ghost use Rattle.std.specs.Prelude.{◌≡◌, take, drop};
ghost use Rattle.desk_side.specs.Turns.{Tells};

use crate::output::Output;
use codec::answer::EIGHT_WAIT;
use ids::CallNumber;

// So many bytes from a place on, as far as there are any.
fn cut(bytes: &[u8], start: usize, len: usize) -> &[u8]
    ensures { result.now ≡ take len (drop start bytes.now) }
{
    let rest = bytes.get(start..).unwrap_or(&[]);
    rest.get(..len).unwrap_or(rest)
}

// The answer that an output tells, out of the message that came; none for a message to the house.
pub fn told<'a>(output: Output, came: &'a [u8]) -> Option<(CallNumber, &'a [u8])>
    ensures { Tells came.now output result }
{
    match output {
        Output::Hello | Output::Alive | Output::Request { .. } => None,
        Output::Tell { number, start, len } => Some((number, cut(came, start, len))),
        Output::Busy { number } => Some((number, &EIGHT_WAIT)),
    }
}
