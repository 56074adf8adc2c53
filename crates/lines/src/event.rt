// Lines as events: what house and desks read.
ghost use Rattle.std.specs.Prelude.{◌≡◌, ℕ, ◌≤◌, length, IfSome, IfOk, Err, vec_capacity};
ghost use Rattle.std.specs.Option.{option_map, ok_or};
ghost use Rattle.text.specs.Words.{first_in};
ghost use Rattle.lines.specs.Events.{clock_line, from_line, all_seen, sync_line, plain_line, house_line, asked_in, asked_view, begun, desk_line, shaped, last_word};
ghost use Rattle.lines.specs.EventTexts.{WrittenBack};
ghost use Rattle.lines.specs.Room.{room, Roomy};

use crate::call::{fill_call, verb_of};
use crate::error::LineError;
use crate::field::hex_into;
use crate::scratch::has_room;
use crate::shape::{Scratch, Shape};
use codec::call::Kind;
use ids::{CallNumber, Clock};
use text::decimal::read_decimal;
use text::word::{first_word, next_word};

const MOST_CLOCK: u64 = 9223372036854775807;

// The shape, if no word follows.
fn last_word(shape: Shape, rest: &[u8]) -> Result<Shape, LineError>
    ensures { result ≡ last_word shape rest.now }
{
    rest.is_empty().then_some(shape).ok_or(LineError::ExtraWord)
}

fn read_clock(rest: &[u8]) -> Result<Shape, LineError>
    ensures { (z : Scratch) → shaped z result ≡ clock_line rest.now }
{
    let (w, rest) = next_word(rest).ok_or(LineError::MissingWord)?;
    let time = read_decimal(w, MOST_CLOCK).ok_or(LineError::BadNumber)?;
    last_word(Shape::Clock(Clock(time)), rest)
}

fn read_from(s: &mut Scratch, rest: &[u8]) -> Result<Shape, LineError>
    requires { Roomy s.old (length rest.now) }
    ensures value { shaped s.new result ≡ from_line rest.now }
    ensures room { room s.new ≡ room s.old }
{
    let (w, rest) = next_word(rest).ok_or(LineError::MissingWord)?;
    let from = read_decimal(w, u64::MAX).ok_or(LineError::BadNumber)?;
    let (w, rest) = next_word(rest).ok_or(LineError::MissingWord)?;
    hex_into(&mut s.bytes, w).ok_or(LineError::BadHex)?;
    last_word(Shape::From(from), rest)
}

fn all_seen(w: &[u8]) -> bool
    ensures { result ≡ all_seen w.now }
{
    w.iter().all(|b| b.is_ascii_graphic())
}

// The buffer holds the word, and nothing else; `extend_from_slice` does not promise that the room stays as it is.
fn hold(buf: &mut Vec<u8>, w: &[u8])
    requires { length w.now ≤ vec_capacity buf.old }
    ensures items { buf.new.items ≡ w.now }
    ensures cap { vec_capacity buf.new ≡ vec_capacity buf.old }
{
    buf.clear();
    for b in w {
        buf.push_reserved(*b);
    }
}

// The word is kept in the buffer for bytes.
fn read_sync(s: &mut Scratch, rest: &[u8]) -> Result<Shape, LineError>
    requires { Roomy s.old (length rest.now) }
    ensures value { shaped s.new result ≡ sync_line rest.now }
    ensures room { room s.new ≡ room s.old }
{
    let (w, rest) = next_word(rest).ok_or(LineError::MissingWord)?;
    if !all_seen(w) {
        return Err(LineError::BadWord);
    }
    let shape = last_word(Shape::Sync, rest)?;
    hold(&mut s.bytes, w);
    Ok(shape)
}

// What house and desks both read, by the first word.
#[tactic(auto, using(crate::proofs::Letters::from_in, crate::proofs::Letters::beat_in, crate::proofs::Letters::sync_in))]
fn read_plain(s: &mut Scratch, w: &[u8], rest: &[u8]) -> Result<Shape, LineError>
    requires { Roomy s.old (length rest.now) }
    ensures value { shaped s.new result ≡ plain_line w.now rest.now }
    ensures room { room s.new ≡ room s.old }
{
    match w {
        b"clock" => read_clock(rest),
        b"from" => read_from(s, rest),
        b"beat" => last_word(Shape::Beat, rest),
        b"sync" => read_sync(s, rest),
        _ => Err(LineError::UnknownWord),
    }
}

// A number and a call's word make a call, whatever follows.
fn asked<'a>(w: &[u8], rest: &'a [u8]) -> Option<(u64, Kind, &'a [u8])>
    ensures value { option_map asked_view result ≡ asked_in w.now rest.now }
    ensures shorter { IfSome result (λ x. length x.2.now ≤ length rest.now) }
{
    let number = read_decimal(w, u64::MAX)?;
    let (word, rest) = next_word(rest)?;
    let verb = verb_of(word)?;
    Some((number, verb, rest))
}

// The first word of a line that the buffers have room for, and the rest.
fn begin<'a>(s: &Scratch, line: &'a [u8]) -> Result<(&'a [u8], &'a [u8]), LineError>
    ensures value { Roomy s.now (length line.now) → begun result ≡ ok_or (first_in line.now) LineError.MissingWord }
    ensures refused { (Roomy s.now (length line.now) → ⊥) → result ≡ Err LineError.NoRoom }
    ensures shorter { IfOk result (λ x. length x.1.now ≤ length line.now) }
{
    if !has_room(s, line.len()) {
        return Err(LineError::NoRoom);
    }
    first_word(line).ok_or(LineError::MissingWord)
}

// A line at the house.
#[tactic(auto, using(crate::proofs::LineLaws::house_written_back))]
pub fn read_house(s: &mut Scratch, line: &[u8]) -> Result<Shape, LineError>
    ensures value { Roomy s.old (length line.now) → shaped s.new result ≡ house_line line.now }
    ensures refused { (Roomy s.old (length line.now) → ⊥) → result ≡ Err LineError.NoRoom }
    ensures room { room s.new ≡ room s.old }
    ensures law { WrittenBack house_line line.now }
{
    let (w, rest) = begin(s, line)?;
    match w {
        b"light" => last_word(Shape::Light, rest),
        _ => read_plain(s, w, rest),
    }
}

// A line at a desk.
#[tactic(auto, using(crate::proofs::LineLaws::desk_written_back))]
pub fn read_desk(s: &mut Scratch, line: &[u8]) -> Result<Shape, LineError>
    ensures value { Roomy s.old (length line.now) → shaped s.new result ≡ desk_line line.now }
    ensures refused { (Roomy s.old (length line.now) → ⊥) → result ≡ Err LineError.NoRoom }
    ensures room { room s.new ≡ room s.old }
    ensures law { WrittenBack desk_line line.now }
{
    let (w, rest) = begin(s, line)?;
    match asked(w, rest) {
        Some((number, verb, rest)) => {
            let form = fill_call(s, verb, rest);
            Ok(Shape::Asked(CallNumber(number), form))
        }
        None => read_plain(s, w, rest),
    }
}
