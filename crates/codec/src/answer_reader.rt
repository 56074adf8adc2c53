// Bytes read as an answer.
ghost use Rattle.std.specs.Prelude.{◌≡◌, ◌^◌, ◌<◌, IsTrue, length};
ghost use Rattle.std.specs.Option.{option_map};
ghost use Rattle.promise.specs.Layout.{names_out, no_in, yes_in, edition_in, got_in, found_in, reply_in, decode_reply};
ghost use Rattle.codec.specs.Statements.{RepliesReadBack, RepliesHaveOneForm};
ghost use Rattle.codec.specs.Answers.{are_names, names_of, answer_kind_number, reply_of};

use crate::answer::*;
use crate::bytes::*;
use ids::Edition;

// Whether these bytes are just so many names, each with its length before it.
#[tactic(auto, using(crate::proofs::NamesRead::names_step, crate::proofs::NamesRead::names_stop))]
pub(crate) fn are_names(count: u16, b: &[u8]) -> bool
    ensures value { result ≡ are_names count b.now }
    ensures written { IsTrue result → names_out (names_of count b.now) ≡ b.now }
    ensures count { IsTrue result → length (names_of count b.now) ≡ count }
    ensures bound { IsTrue result → length b.now < 2 ^ 24 }
{
    let mut rest = b;
    for _ in 0..count {
        let Some((_, more)) = read_name(rest) else {
            return false;
        };
        rest = more;
    }
    rest.is_empty()
}

fn read_no(b: &[u8]) -> Option<Answer<'_>>
    ensures { option_map reply_of result ≡ no_in b.now }
{
    let (number, rest) = read_number::<u8, _>(b)?;
    ended(Answer::No(number.into()), rest)
}

fn read_yes(b: &[u8]) -> Option<Answer<'_>>
    ensures { option_map reply_of result ≡ yes_in b.now }
{
    ended(Answer::Yes, b)
}

fn read_edition(b: &[u8]) -> Option<Answer<'_>>
    ensures { option_map reply_of result ≡ edition_in b.now }
{
    let (edition, rest) = read_number(b)?;
    ended(Answer::Edition(Edition(edition)), rest)
}

fn read_got(b: &[u8]) -> Option<Answer<'_>>
    ensures { option_map reply_of result ≡ got_in b.now }
{
    let (edition, rest) = read_number(b)?;
    let (whole, rest) = read_number(rest)?;
    let (bytes, rest) = read_bytes(rest)?;
    let edition = Edition(edition);
    ended(
        Answer::Read {
            edition,
            whole,
            bytes,
        },
        rest,
    )
}

fn read_found(b: &[u8]) -> Option<Answer<'_>>
    ensures { option_map reply_of result ≡ found_in b.now }
{
    let (count, names) = read_number(b)?;
    are_names(count, names).then_some(Answer::Names { count, names })
}

fn read_by_kind(kind: AnswerKind, b: &[u8]) -> Option<Answer<'_>>
    ensures { option_map reply_of result ≡ reply_in (answer_kind_number kind) b.now }
{
    match kind {
        AnswerKind::No => read_no(b),
        AnswerKind::Yes => read_yes(b),
        AnswerKind::Edition => read_edition(b),
        AnswerKind::Read => read_got(b),
        AnswerKind::Names => read_found(b),
    }
}

// The answer that all of these bytes say; None where they are no answer.
#[tactic(auto, using(crate::proofs::UnknownKinds::unknown_reply, crate::proofs::RepliesBack::replies_back), unfolding(promise::specs::Layout::decode_reply))]
pub fn read_answer(b: &[u8]) -> Option<Answer<'_>>
    ensures value { option_map reply_of result ≡ decode_reply b.now }
    ensures back { RepliesReadBack }
    ensures form { RepliesHaveOneForm }
{
    // the reader's answer is taken apart by `let .. else`: docs/DECISIONS.md, "Code forms"; elsewhere `?` does it
    let Some((number, body)) = read_number::<u8, _>(b) else {
        return None;
    };
    read_by_kind(AnswerKind::try_from(number).ok()?, body)
}
