// Answers written as bytes, behind others for which there is room.
#![tactic(auto, using(std::proofs::lemmas::List::append_assoc))]

ghost use Rattle.std.specs.Prelude.{◌≡◌, ◌+◌, ◌^◌, ◌<◌, ◌≤◌, ◌↔◌, ◌∷◌, ◌++◌, is_ok, if◌then◌else◌, vec_len, vec_capacity, IsOk, IfSome};
ghost use Rattle.std.specs.Option.{SomeIff};
ghost use Rattle.promise.specs.Layout.{encode_reply};
ghost use Rattle.codec.specs.Appends.{Appends, AppendsOrKeeps};
ghost use Rattle.codec.specs.Answers.{reply_of, answer_kind, fields_out, fields_size, answer_size, AnswerFits};

use crate::DoesNotFit;
use crate::answer::*;
use crate::answer_reader::are_names;
use crate::append::*;

// How many bytes follow the kind; None where a length does not fit its field, or names are not as many as it says.
#[tactic(auto, unfolding(promise::specs::Layout::encode_reply))]
fn fields_size(a: Answer<'_>) -> Option<usize>
    ensures size { SomeIff result (AnswerFits a.entry) (fields_size a.entry) }
    ensures bound { IfSome result (λ n. n < 2 ^ 33) }
    ensures layout { IfSome result (λ _. answer_kind a.entry ∷ fields_out a.entry ≡ encode_reply (reply_of a.entry)) }
{
    match a {
        Answer::No(_) => Some(1),
        Answer::Yes => Some(0),
        Answer::Edition(_) => Some(8),
        Answer::Read { bytes, .. } => Some(12 + bytes_size(bytes)?),
        Answer::Names { count, names } => are_names(count, names).then_some(2 + names.len()),
    }
}

// What follows the kind.
fn append_fields(v: &mut Vec<u8>, a: Answer<'_>)
    requires fits { AnswerFits a }
    requires room { vec_len v.old + fields_size a ≤ vec_capacity v.old }
    ensures { Appends v.old v.new (fields_size a.entry) (fields_out a.entry) }
{
    match a {
        Answer::No(refusal) => append_number(v, u8::from(refusal)),
        Answer::Yes => {}
        Answer::Edition(edition) => append_number(v, edition.0),
        Answer::Read {
            edition,
            whole,
            bytes,
        } => {
            append_number(v, edition.0);
            append_number(v, whole);
            append_bytes(v, bytes);
        }
        Answer::Names { count, names } => {
            append_number(v, count);
            append(v, names);
        }
    }
}

// An answer behind what is there already. Where it does not fit, all stays as it was.
pub fn write_answer(v: &mut Vec<u8>, a: Answer<'_>) -> Result<(), DoesNotFit>
    ensures fits { IsOk result ↔ (AnswerFits a.entry × (vec_len v.old + answer_size a.entry ≤ vec_capacity v.old)) }
    ensures written { AppendsOrKeeps result v.old v.new (answer_size a.entry) (encode_reply (reply_of a.entry)) }
{
    let fields = fields_size(a).ok_or(DoesNotFit)?;
    check_room(v, 1 + fields)?;
    v.push_reserved(a.kind() as u8);
    append_fields(v, a);
    Ok(())
}
