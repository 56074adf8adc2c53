// Messages laid out in a lent part: the fields are written from the last to the first, around the call or the answer that is there.
#![tactic(auto, using(codec::proofs::Numbers::be_1), unfolding(codec::specs::Messages::encode_msg))]

ghost use Rattle.std.specs.Prelude.{◌≡◌, ◌+◌, ◌^◌, ◌<◌, ◌≤◌, ◌∷◌, ◌++◌, length, drop};
ghost use Rattle.promise.specs.Bytes.{be};
ghost use Rattle.messages.specs.Kinds.{kind_number};
ghost use Rattle.codec.specs.Messages.{Welcome, Request, Response, lengthed, summed, encode_msg};

use crate::kind::Kind;
use crate::sum::sum;
use codec::Number;
use ids::{Grant, Nonce, RequestId, Session};

fn put_number<T: Number<N>, const N: usize>(part: &mut [u8], at: usize, n: T)
    requires { at + N ≤ length part.old }
    ensures { drop at part.new ≡ be N (T.value n) ++ drop (at + N) part.old }
{
    part[at..at + N].copy_from_slice(&n.to_be());
}

// A number with nothing behind it.
fn put_last(part: &mut [u8], at: usize, n: u64)
    requires { at + 8 ≡ length part.old }
    ensures { drop at part.new ≡ be 8 n }
{
    put_number(part, at, n);
}

// Kind, length and sum, in front of fields that are there already.
fn put_front(part: &mut [u8], kind: Kind)
    requires { (13 ≤ length part.old) × (length part.old < 2 ^ 32) }
    ensures { part.new ≡ summed (lengthed (kind_number kind ∷ drop 13 part.old)) }
{
    put_number(part, 12, kind.number());
    let size = part.len() as u32;
    put_number(part, 8, size);
    let h = sum(&part[8..]);
    put_number(part, 0, h);
}

fn put_request_id(part: &mut [u8], request: RequestId)
    requires { 30 ≤ length part.old }
    ensures { drop 13 part.new ≡ be 8 request.session.0 ++ (request.slot.0 ∷ (be 8 request.seq.0 ++ drop 30 part.old)) }
{
    put_number(part, 22, request.seq.0);
    put_number(part, 21, request.slot.0);
    put_number(part, 13, request.session.0);
}

// A message of one number.
pub(crate) fn put_single(part: &mut [u8], kind: Kind, n: u64)
    requires { length part.old ≡ 21 }
    ensures { part.new ≡ summed (lengthed (kind_number kind ∷ be 8 n)) }
{
    put_last(part, 13, n);
    put_front(part, kind);
}

pub(crate) fn put_welcome(part: &mut [u8], nonce: Nonce, session: Session)
    requires { length part.old ≡ 29 }
    ensures { part.new ≡ encode_msg (Welcome nonce.0 session.0) }
{
    put_last(part, 21, session.0);
    put_number(part, 13, nonce.0);
    put_front(part, Kind::Welcome);
}

pub(crate) fn put_request(part: &mut [u8], request: RequestId)
    requires { (30 ≤ length part.old) × (length part.old < 2 ^ 32) }
    ensures { part.new ≡ encode_msg (Request request.session.0 request.slot.0 request.seq.0 (drop 30 part.old)) }
{
    put_request_id(part, request);
    put_front(part, Kind::Request);
}

pub(crate) fn put_response(part: &mut [u8], request: RequestId, grant: Grant)
    requires { (38 ≤ length part.old) × (length part.old < 2 ^ 32) }
    ensures { part.new ≡ encode_msg (Response request.session.0 request.slot.0 request.seq.0 grant.0 (drop 38 part.old)) }
{
    put_number(part, 30, grant.0);
    put_request_id(part, request);
    put_front(part, Kind::Response);
}
