// Answers as lines.
ghost use Rattle.std.specs.Prelude.{◌≡◌, ℕ, ◌+◌, ◌*◌, ◌≤◌, ◌++◌, length, vec_len, vec_capacity};
ghost use Rattle.promise.specs.Sheets.{Got, Found};
ghost use Rattle.printing.specs.Answers.{listed, answer_of, names_text, reply_text, answer_line, carried};
ghost use Rattle.printing.specs.Printed.{Grows, Prints};
ghost use Rattle.text.specs.Decimals.{decimal_text};

use codec::answer::Answer;
use codec::next_name;
use ids::{CallNumber, Edition};
use text::decimal::write_decimal;
use text::hex::write_hex;
use text::name::write_name;
use text::room::{NoRoom, need_room};

// Room for the words and numbers of any answer.
const WORDS: usize = 128;

// How many of so many names are there.
#[tactic(auto, using(crate::proofs::Listing::listed_stops, crate::proofs::Listing::listed_none))]
fn count_names(count: u16, names: &[u8]) -> u16
    ensures { result ≡ length (listed count names.now) }
{
    let mut rest = names;
    for there in 0..count {
        let Some((_, tail)) = next_name(rest) else {
            return there;
        };
        rest = tail;
    }
    count
}

#[tactic(auto, using(crate::proofs::Listing::listed_none))]
fn push_names(out: &mut Vec<u8>, count: u16, names: &[u8])
    requires { vec_len out.old + 3 * length names.now ≤ vec_capacity out.old }
    ensures { Grows out.old out.new (3 * length names.now) (names_text (listed count names.now)) }
{
    let mut rest = names;
    for _ in 0..count {
        let Some((name, tail)) = next_name(rest) else {
            return;
        };
        out.push_reserved(b' ');
        write_name(out, name).unwrap();
        rest = tail;
    }
}

fn push_number(out: &mut Vec<u8>, word: &[u8], n: u64)
    requires { vec_len out.old + (length word.now + 20) ≤ vec_capacity out.old }
    ensures { Grows out.old out.new (length word.now + 20) (word.now ++ decimal_text n) }
{
    out.extend_from_slice(word).unwrap();
    write_decimal(out, n).unwrap();
}

fn push_read(out: &mut Vec<u8>, edition: Edition, whole: u32, bytes: &[u8])
    requires { vec_len out.old + (3 * length bytes.now + 96) ≤ vec_capacity out.old }
    ensures { Grows out.old out.new (3 * length bytes.now + 96) (reply_text (Got edition.0 whole bytes.now)) }
{
    push_number(out, b" read ", edition.0);
    push_number(out, b" ", u64::from(whole));
    out.push_reserved(b' ');
    write_hex(out, bytes).unwrap();
}

fn push_found(out: &mut Vec<u8>, count: u16, names: &[u8])
    requires { vec_len out.old + (3 * length names.now + 96) ≤ vec_capacity out.old }
    ensures { Grows out.old out.new (3 * length names.now + 96) (reply_text (Found (listed count names.now))) }
{
    let there = count_names(count, names);
    push_number(out, b" names ", u64::from(there));
    push_names(out, count, names);
}

fn push_reply(out: &mut Vec<u8>, answer: Answer<'_>)
    requires { vec_len out.old + (3 * carried answer + 96) ≤ vec_capacity out.old }
    ensures { Grows out.old out.new (3 * carried answer.entry + 96) (reply_text (answer_of answer.entry)) }
{
    match answer {
        Answer::No(refusal) => push_number(out, b" no ", u64::from(u8::from(refusal))),
        Answer::Yes => out.extend_from_slice(b" yes").unwrap(),
        Answer::Edition(edition) => push_number(out, b" edition ", edition.0),
        Answer::Read {
            edition,
            whole,
            bytes,
        } => push_read(out, edition, whole, bytes),
        Answer::Names { count, names } => push_found(out, count, names),
    }
}

// How many bytes come with an answer.
fn carried_len(answer: Answer<'_>) -> usize
    ensures { result ≡ carried answer.entry }
{
    match answer {
        Answer::Read { bytes, .. } => bytes.len(),
        Answer::Names { names, .. } => names.len(),
        _ => 0,
    }
}

// An answer to the call of a number.
pub fn write_answer(out: &mut Vec<u8>, number: CallNumber, answer: Answer<'_>) -> Result<(), NoRoom>
    ensures { Prints out.old out.new result (3 * carried answer.entry + 128) (answer_line number.0 (answer_of answer.entry)) }
{
    need_room(
        out,
        carried_len(answer).saturating_mul(3).saturating_add(WORDS),
    )?;
    write_decimal(out, number.0).unwrap();
    push_reply(out, answer);
    out.push_reserved(b'\n');
    Ok(())
}
