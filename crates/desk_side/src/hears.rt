// What a desk does at a message: what it knows then, and says. None where nothing is said, and it knows what it knew.
ghost use Rattle.std.specs.Prelude.{◌≡◌, ℕ, List};
ghost use Rattle.promise.specs.Bytes.{Bytes};
ghost use Rattle.codec.specs.Messages.{decode_msg};

use crate::say::Say;
use crate::slot::{Place, Which};
use crate::state::Asking;
use ids::{Nonce, RequestId, Session};
use messages::{Message, read_message};

// Where a Response's answer begins.
const RESPONSE_HEAD: usize = 38;

impl Asking {
    ghost use Rattle.std.specs.Prelude.{take, drop};
    ghost use Rattle.asking.specs.Desk.{welcome, response_by};
    ghost use Rattle.asking.specs.House.{is_session};
    ghost use Rattle.desk_side.specs.Sessions.{session_of};
    ghost use Rattle.desk_side.specs.Said.{said_if, heard};
    ghost use Rattle.desk_side.specs.View.{desk_of};

    fn hear_welcome(&mut self, nonce: Nonce, session: Session) -> Option<Say>
        ensures { (ps : List Bytes) (t : ℕ) (b : Bytes) → said_if result t b ps self.new ≡ welcome t nonce.0 session.0 (desk_of ps self.old) }
    {
        if !self.is_mine(nonce, session) {
            return None;
        }
        *self = self.adopt(session);
        Some(Say::Requests {
            which: Which::NotSent,
        })
    }

    // The answer is `len` bytes of the message that came, from `start` on: two numbers, as they go into `Output::Tell`, which is public.
    fn hear_response(&mut self, request: RequestId, start: usize, len: usize) -> Option<Say>
        ensures { (ps : List Bytes) (t : ℕ) (b : Bytes) → said_if result t b ps self.new ≡ response_by request.slot.0 request.seq.0 (take len (drop start b)) (is_session request.session.0 (session_of self.old.session)) (desk_of ps self.old) }
    {
        if !self.is_session(request.session) {
            return None;
        }
        let place = Place::at(request.slot, request.seq)?;
        let number = self.waiting(place)?;
        *self = self.settle(place);
        Some(Say::Tell { number, start, len })
    }

    pub(crate) fn hear(&mut self, bytes: &[u8]) -> Option<Say>
        ensures { (ps : List Bytes) (t : ℕ) → said_if result t bytes.now ps self.new ≡ heard t (decode_msg bytes.now) (desk_of ps self.old) }
    {
        let message = read_message(bytes)?;
        match message {
            Message::Welcome { nonce, session } => self.hear_welcome(nonce, session),
            Message::Response { request, .. } => {
                let start = RESPONSE_HEAD.min(bytes.len());
                self.hear_response(request, start, bytes.len() - start)
            }
            Message::Hello { .. } | Message::Request { .. } | Message::Alive { .. } => None,
        }
    }
}
