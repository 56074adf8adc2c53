// What house and desks say to each other. The call and the answer are parts of the message that they came in.
ghost use Rattle.std.specs.Prelude.{◌≡◌, ◌↔◌, IsTrue};
ghost use Rattle.promise.specs.Layout.{is_busy};

use codec::answer::EIGHT_WAIT;
use ids::{Grant, Nonce, RequestId, Session};

#[derive(Clone, Copy)]
pub enum Message<'a> {
    Hello {
        nonce: Nonce,
    },
    Welcome {
        nonce: Nonce,
        session: Session,
    },
    Request {
        request: RequestId,
        call: &'a [u8],
    },
    Response {
        request: RequestId,
        grant: Grant,
        answer: &'a [u8],
    },
    Alive {
        session: Session,
    },
}

// How many bytes stand before the call or the answer.
pub(crate) const REQUEST_HEAD: usize = 30;

pub(crate) const RESPONSE_HEAD: usize = 38;

// No call and no answer is as long.
pub(crate) const TOO_LONG: usize = 0x8000_0000;

// The answer that eight calls wait already: only a desk tells it, and it is never sent.
pub(crate) fn is_busy(answer: &[u8]) -> bool
    ensures { result ≡ is_busy answer.now }
{
    answer == EIGHT_WAIT.as_slice()
}

impl<'a> Message<'a> {
    ghost use Rattle.messages.specs.Views.{msg_of, head_size, payload, MessageFits};

    pub(crate) fn head_size(self) -> usize
        ensures { result ≡ head_size (msg_of self.entry) }
    {
        match self {
            Message::Hello { .. } | Message::Alive { .. } => 21,
            Message::Welcome { .. } => 29,
            Message::Request { .. } => REQUEST_HEAD,
            Message::Response { .. } => RESPONSE_HEAD,
        }
    }

    // The call or the answer.
    pub(crate) fn payload(self) -> &'a [u8]
        ensures { result.now ≡ payload (msg_of self.entry) }
    {
        match self {
            Message::Request { call, .. } => call,
            Message::Response { answer, .. } => answer,
            _ => &[],
        }
    }

    pub(crate) fn fits(self) -> bool
        ensures { IsTrue result ↔ MessageFits (msg_of self.entry) }
    {
        match self {
            Message::Request { call, .. } => call.len() < TOO_LONG,
            Message::Response { answer, .. } => answer.len() < TOO_LONG && !is_busy(answer),
            _ => true,
        }
    }
}
