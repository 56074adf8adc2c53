// Bytes read as a message.
ghost use Rattle.std.specs.Prelude.{◌≡◌, None, MatchOption};
ghost use Rattle.std.specs.Option.{option_map};
ghost use Rattle.codec.specs.Messages.{hello_in, welcome_in, request_in, response_in, alive_in, kind_in, body_in, decode_msg, ReadsBack};
ghost use Rattle.messages.specs.Noise.{MessagesHaveOneForm, CutIsNoise, LengthenedIsNoise, ChangedWordIsNoise};
ghost use Rattle.messages.specs.Views.{msg_of, identified, request_id_in, last_number_in};

use crate::kind::Kind;
use crate::message::{Message, is_busy};
use crate::sum::sum;
use codec::read_number;
use ids::{Grant, Nonce, RequestId, Seq, Session, SlotId};

// A number with nothing behind it.
fn read_last(b: &[u8]) -> Option<u64>
    ensures { result ≡ last_number_in b.now }
{
    let (number, rest) = read_number(b)?;
    rest.is_empty().then_some(number)
}

fn read_request_id<'a>(b: &'a [u8]) -> Option<(RequestId, &'a [u8])>
    ensures { option_map identified result ≡ request_id_in b.now }
{
    let (session, rest) = read_number(b)?;
    let (slot, rest) = read_number(rest)?;
    let (seq, rest) = read_number(rest)?;
    let request = RequestId {
        session: Session(session),
        slot: SlotId(slot),
        seq: Seq(seq),
    };
    Some((request, rest))
}

fn read_hello<'a>(b: &'a [u8]) -> Option<Message<'a>>
    ensures { option_map msg_of result ≡ hello_in b.now }
{
    let nonce = Nonce(read_last(b)?);
    Some(Message::Hello { nonce })
}

fn read_welcome<'a>(b: &'a [u8]) -> Option<Message<'a>>
    ensures { option_map msg_of result ≡ welcome_in b.now }
{
    let (nonce, rest) = read_number(b)?;
    let session = Session(read_last(rest)?);
    Some(Message::Welcome {
        nonce: Nonce(nonce),
        session,
    })
}

fn read_request<'a>(b: &'a [u8]) -> Option<Message<'a>>
    ensures { option_map msg_of result ≡ request_in b.now }
{
    let (request, call) = read_request_id(b)?;
    Some(Message::Request { request, call })
}

fn read_response<'a>(b: &'a [u8]) -> Option<Message<'a>>
    ensures { option_map msg_of result ≡ response_in b.now }
{
    let (request, rest) = read_request_id(b)?;
    let (grant, answer) = read_number(rest)?;
    if is_busy(answer) {
        return None;
    }
    Some(Message::Response {
        request,
        grant: Grant(grant),
        answer,
    })
}

fn read_alive<'a>(b: &'a [u8]) -> Option<Message<'a>>
    ensures { option_map msg_of result ≡ alive_in b.now }
{
    let session = Session(read_last(b)?);
    Some(Message::Alive { session })
}

fn read_by_kind<'a>(kind: u8, b: &'a [u8]) -> Option<Message<'a>>
    ensures { option_map msg_of result ≡ kind_in kind b.now }
{
    match Kind::try_from(kind).ok()? {
        Kind::Hello => read_hello(b),
        Kind::Welcome => read_welcome(b),
        Kind::Request => read_request(b),
        Kind::Response => read_response(b),
        Kind::Alive => read_alive(b),
    }
}

#[tactic(auto, unfolding(codec::specs::Messages::body_in))]
fn read_body<'a>(b: &'a [u8]) -> Option<Message<'a>>
    ensures { option_map msg_of result ≡ body_in b.now }
{
    let (kind, rest) = read_number(b)?;
    read_by_kind(kind, rest)
}

// What stands behind the sum and the length of a message, if they are right.
#[tactic(auto, unfolding(codec::specs::Messages::decode_msg))]
fn checked_body<'a>(b: &'a [u8]) -> Option<&'a [u8]>
    ensures { MatchOption result (decode_msg b.now ≡ None) (λ x. decode_msg b.now ≡ body_in x.now) }
{
    let (claimed, rest) = read_number::<u64, _>(b)?;
    if claimed != sum(rest) {
        return None;
    }
    let (size, body) = read_number::<u32, _>(rest)?;
    if size as usize != b.len() {
        return None;
    }
    Some(body)
}

// The message that all of these bytes are; None where they are noise.
pub fn read_message<'a>(b: &'a [u8]) -> Option<Message<'a>>
    ensures value { option_map msg_of result ≡ decode_msg b.now }
    ensures back { ReadsBack }
    ensures form { MessagesHaveOneForm }
    ensures cut { CutIsNoise }
    ensures lengthened { LengthenedIsNoise }
    ensures changed { ChangedWordIsNoise }
{
    checked_body(b).and_then(read_body)
}
