// The front of a request or a response, written into a lent part before the call or the answer that is there. Where there is no room for it, or
// what is there is too long, all stays as it was.
ghost use Rattle.std.specs.Prelude.{◌≡◌, ◌+◌, ◌^◌, ◌<◌, ◌≤◌, ◌↔◌, length, drop, is_ok, if◌then◌else◌, IsOk};
ghost use Rattle.codec.specs.Messages.{Request, Response, encode_msg};

use crate::message::{REQUEST_HEAD, RESPONSE_HEAD, TOO_LONG};
use crate::put::{put_request, put_response};
use codec::DoesNotFit;
use ids::{Grant, RequestId};

// Whether a part has room for so long a front, and what follows it is not too long.
fn check_front(part: &[u8], front: usize) -> Result<(), DoesNotFit>
    ensures { IsOk result ↔ ((front ≤ length part.now) × (length part.now < front + 2 ^ 31)) }
{
    match part.len().checked_sub(front) {
        Some(rest) if rest < TOO_LONG => Ok(()),
        _ => Err(DoesNotFit),
    }
}

pub fn seal_request(part: &mut [u8], request: RequestId) -> Result<(), DoesNotFit>
    ensures fits { IsOk result ↔ ((30 ≤ length part.old) × (length part.old < 30 + 2 ^ 31)) }
    ensures value { part.new ≡ (if is_ok result then encode_msg (Request request.session.0 request.slot.0 request.seq.0 (drop 30 part.old)) else part.old) }
{
    check_front(part, REQUEST_HEAD)?;
    put_request(part, request);
    Ok(())
}

pub fn seal_response(part: &mut [u8], request: RequestId, grant: Grant) -> Result<(), DoesNotFit>
    ensures fits { IsOk result ↔ ((38 ≤ length part.old) × (length part.old < 38 + 2 ^ 31)) }
    ensures value { part.new ≡ (if is_ok result then encode_msg (Response request.session.0 request.slot.0 request.seq.0 grant.0 (drop 38 part.old)) else part.old) }
{
    check_front(part, RESPONSE_HEAD)?;
    put_response(part, request, grant);
    Ok(())
}
