// What a turn says, in memory that is reserved once.
ghost use Rattle.std.specs.Prelude.{◌≤◌, vec_capacity};

use crate::draft::Draft;
use crate::store::Store;
use codec::answer::Outcome;
use ids::{DeskId, Nonce, RequestId, Session};

#[derive(Drop)]
pub struct Outbox {
    // to whom the message goes, if there is one
    pub(crate) to: Option<DeskId>,
    pub(crate) message: Draft,
    // whose hold has ended
    pub(crate) lapsed: Vec<DeskId>,
    ghost many: { 63 ≤ vec_capacity lapsed },
}

impl Outbox {
    ghost use Rattle.std.specs.Prelude.{◌≡◌, true, [], ◌∷◌};
    ghost use Rattle.promise.specs.Desks.{To};
    ghost use Rattle.codec.specs.Messages.{Welcome, Response, encode_msg};
    ghost use Rattle.sessions.specs.View.{kept_bytes};
    ghost use Rattle.house_side.specs.Tables.{reads, answer_to};
    ghost use Rattle.house_side.specs.Outs.{outs_of};

    // Nothing is said.
    pub(crate) fn clear(&mut self)
        ensures { outs_of self.new ≡ [] }
    {
        self.to = None;
        self.lapsed.clear();
    }

    // The message that was written, and nothing else.
    fn send(&mut self, to: DeskId)
        ensures { outs_of self.new ≡ To to.0 self.old.message.bytes.items ∷ [] }
    {
        self.to = Some(to);
        self.lapsed.clear();
    }

    pub(crate) fn welcome(&mut self, to: DeskId, nonce: Nonce, session: Session)
        ensures { outs_of self.new ≡ To to.0 (encode_msg (Welcome nonce.0 session.0)) ∷ [] }
    {
        self.message.welcome(nonce, session);
        self.send(to);
    }

    // The answer of a change.
    pub(crate) fn change(&mut self, to: DeskId, request: RequestId, answer: Option<Outcome>)
        ensures { outs_of self.new ≡ To to.0 (encode_msg (Response request.session.0 request.slot.0 request.seq.0 0 (kept_bytes answer))) ∷ [] }
    {
        self.message.begin_response();
        self.message.answer(answer);
        self.message.seal(request);
        self.send(to);
    }

    // The answer of a query, from the table as it is.
    pub(crate) fn query<S: Store>(&mut self, to: DeskId, request: RequestId, table: &S, call: &[u8])
        requires { reads call.now ≡ true }
        ensures { outs_of self.new ≡ To to.0 (encode_msg (Response request.session.0 request.slot.0 request.seq.0 0 (answer_to (S.Store.room table.now) to.0 call.now (S.Store.state table.now)))) ∷ [] }
    {
        self.message.begin_response();
        table.query(to, call, &mut self.message.bytes);
        self.message.seal(request);
        self.send(to);
    }
}
