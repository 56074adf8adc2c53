// A call or its answer on a line between a caller and a desk.
ghost use Rattle.std.specs.Prelude.{◌≡◌, ◌+◌, ◌^◌, ◌<◌, ◌≤◌, ◌↔◌, ◌++◌, length, is_ok, if◌then◌else◌, vec_len, vec_capacity, IsOk};
ghost use Rattle.std.specs.Option.{option_map};
ghost use Rattle.promise.specs.Layout.{framed, frame_in};
ghost use Rattle.codec.specs.Appends.{AppendsOrKeeps};
ghost use Rattle.codec.specs.Frames.{frame_of};
ghost use Rattle.codec.specs.Statements.{FramesReadBack, FramesHaveOneForm};

use crate::DoesNotFit;
use crate::append::*;
use crate::bytes::*;
use ids::CallNumber;

#[derive(Clone, Copy, Debug, PartialEq, Eq)]
pub struct Frame<'a> {
    pub number: CallNumber,
    pub bytes: &'a [u8],
}

// The first frame of what came on a line, and what follows it; None where it isn't all there.
#[tactic(auto, using(crate::proofs::FramesBack::frames_back))]
pub fn read_frame(b: &[u8]) -> Option<(Frame<'_>, &[u8])>
    ensures value { option_map frame_of result ≡ frame_in b.now }
    ensures back { FramesReadBack }
    ensures form { FramesHaveOneForm }
{
    let (whole, rest) = read_bytes(b)?;
    let (number, bytes) = read_number::<u64, _>(whole)?;
    Some((
        Frame {
            number: CallNumber(number),
            bytes,
        },
        rest,
    ))
}

// A frame behind what is there already. Where it does not fit, all stays as it was.
pub fn write_frame(v: &mut Vec<u8>, number: CallNumber, bytes: &[u8]) -> Result<(), DoesNotFit>
    ensures fits { IsOk result ↔ ((8 + length bytes.now < 2 ^ 32) × (vec_len v.old + (12 + length bytes.now) ≤ vec_capacity v.old)) }
    ensures written { AppendsOrKeeps result v.old v.new (12 + length bytes.now) (framed number.0 bytes.now) }
{
    let size = u32::try_from(8 + bytes.len()).map_err(|_| DoesNotFit)?;
    check_room(v, 12 + bytes.len())?;
    append_number(v, size);
    append_number(v, number.0);
    append(v, bytes);
    Ok(())
}
