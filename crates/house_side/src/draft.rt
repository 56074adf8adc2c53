// A message as it is written, in memory that is reserved once.
ghost use Rattle.std.specs.Prelude.{◌≡◌, ◌≤◌, ◌++◌, drop, vec_len, vec_capacity};
ghost use Rattle.codec.specs.Messages.{Welcome, Response, encode_msg};
ghost use Rattle.house_side.specs.Tables.{longest_message};

use codec::answer::Outcome;
use codec::write_answer;
use ids::{Grant, Nonce, RequestId, Session};
use messages::{Message, seal_response, write_message};

// How many bytes of a response stand before the answer.
const FRONT: usize = 38;

#[derive(Drop)]
pub(crate) struct Draft {
    pub(crate) bytes: Vec<u8>,
    ghost wide: { longest_message ≤ vec_capacity bytes },
}

impl Draft {
    ghost use Rattle.sessions.specs.View.{kept_bytes};

    pub(crate) fn welcome(&mut self, nonce: Nonce, session: Session)
        ensures { self.new.bytes.items ≡ encode_msg (Welcome nonce.0 session.0) }
    {
        self.bytes.clear();
        write_message(&mut self.bytes, Message::Welcome { nonce, session }).unwrap();
    }

    // Leaves place for what stands before the answer.
    pub(crate) fn begin_response(&mut self)
        ensures { vec_len self.new.bytes ≡ FRONT }
    {
        let _ = self.bytes.resize_with(FRONT, || 0);
    }

    // A kept answer, behind the place for what stands before it.
    pub(crate) fn answer(&mut self, kept: Option<Outcome>)
        requires { vec_len self.old.bytes ≡ FRONT }
        ensures items { self.new.bytes.items ≡ self.old.bytes.items ++ kept_bytes kept }
        ensures more { FRONT ≤ vec_len self.new.bytes }
        ensures few { vec_len self.new.bytes ≤ longest_message }
    {
        if let Some(outcome) = kept {
            write_answer(&mut self.bytes, outcome.into()).unwrap();
        }
    }

    // What stands before the answer.
    pub(crate) fn seal(&mut self, request: RequestId)
        requires { (FRONT ≤ vec_len self.old.bytes) × (vec_len self.old.bytes ≤ longest_message) }
        ensures { self.new.bytes.items ≡ encode_msg (Response request.session.0 request.slot.0 request.seq.0 0 (drop FRONT self.old.bytes.items)) }
    {
        seal_response(self.bytes.as_mut_slice(), request, Grant(0)).unwrap();
    }
}
