// Messages written as bytes, behind others for which there is room.
ghost use Rattle.std.specs.Prelude.{◌≡◌, ◌+◌, ◌-◌, ◌^◌, ◌<◌, ◌≤◌, ◌++◌, length, drop, is_ok, if◌then◌else◌, vec_len, vec_capacity, IsOk, ◌↔◌};
ghost use Rattle.codec.specs.Appends.{Appends};
ghost use Rattle.codec.specs.Messages.{encode_msg};
ghost use Rattle.messages.specs.Views.{msg_of, head_size, payload, message_size, MessageFits};

use crate::kind::Kind;
use crate::message::{Message, RESPONSE_HEAD};
use crate::put::{put_request, put_response, put_single, put_welcome};
use codec::DoesNotFit;

// `extend_from_slice` leaves unproved that the capacity stays. Public functions have no `requires` here, so codec's own cannot be shared.
fn append(v: &mut Vec<u8>, more: &[u8])
    requires { vec_len v.old + length more.now ≤ vec_capacity v.old }
    ensures { Appends v.old v.new (length more.now) more.now }
{
    for b in more {
        v.push_reserved(*b);
    }
}

// The front of a message, before the call or the answer that is there.
#[tactic(auto, unfolding(codec::specs::Messages::encode_msg))]
fn put_message(part: &mut [u8], m: Message<'_>)
    requires { (length part.old ≡ message_size (msg_of m)) × ((drop (head_size (msg_of m)) part.old ≡ payload (msg_of m)) × (length part.old < 2 ^ 32)) }
    ensures { part.new ≡ encode_msg (msg_of m.entry) }
{
    match m {
        Message::Hello { nonce } => put_single(part, Kind::Hello, nonce.0),
        Message::Welcome { nonce, session } => put_welcome(part, nonce, session),
        Message::Request { request, .. } => put_request(part, request),
        Message::Response { request, grant, .. } => put_response(part, request, grant),
        Message::Alive { session } => put_single(part, Kind::Alive, session.0),
    }
}

// A message behind what is there already. Where it does not fit, all stays as it was.
pub fn write_message(v: &mut Vec<u8>, m: Message<'_>) -> Result<(), DoesNotFit>
    ensures fits { IsOk result ↔ (MessageFits (msg_of m.entry) × (vec_len v.old + message_size (msg_of m.entry) ≤ vec_capacity v.old)) }
    ensures items { v.new.items ≡ (if is_ok result then v.old.items ++ encode_msg (msg_of m.entry) else v.old.items) }
    ensures len { vec_len v.new ≡ (if is_ok result then vec_len v.old + message_size (msg_of m.entry) else vec_len v.old) }
    ensures cap { vec_capacity v.new ≡ vec_capacity v.old }
{
    let head = m.head_size();
    let payload = m.payload();
    if !m.fits() || v.capacity() - v.len() < head + payload.len() {
        return Err(DoesNotFit);
    }
    let start = v.len();
    let zeros = [0; RESPONSE_HEAD];
    append(v, &zeros[..head]);
    append(v, payload);
    put_message(&mut v.as_mut_slice()[start..], m);
    Ok(())
}
