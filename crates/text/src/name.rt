// Names of sheets as words: a byte that can be seen stands for itself, every other is written by its number.
ghost use Rattle.std.specs.Prelude.{◌≡◌, ℕ, ◌+◌, ◌*◌, ◌≤◌, length, IfSome, if◌then◌else◌, Err, vec_len, vec_capacity, nat_le};
ghost use Rattle.std.specs.Option.{option_map, ok_or};
ghost use Rattle.text.specs.Laws.{WrittenBack, NameAgain};
ghost use Rattle.text.specs.Names.{is_plain, numbered, escape, escaped, name_text, number_in, byte_in, byte_and_rest, name_from, name_in};
ghost use Rattle.text.specs.Readings.{ahead, read_as};
ghost use Rattle.text.specs.Writings.{Appends, Writes};

use crate::hex::{pair_value, push_pair};
use crate::room::{NoRoom, Unread, need_room};

// The longest name, in bytes.
pub const LONGEST: usize = 255;

fn is_plain(b: u8) -> bool
    ensures { result ≡ is_plain b }
{
    b.is_ascii_graphic() && b != b'%'
}

fn push_number(out: &mut Vec<u8>, b: u8)
    requires { vec_len out.old + 3 ≤ vec_capacity out.old }
    ensures { Appends out.old out.new (numbered b) }
{
    out.push_reserved(b'%');
    push_pair(out, b);
}

fn push_escape(out: &mut Vec<u8>, b: u8)
    requires { vec_len out.old + 3 ≤ vec_capacity out.old }
    ensures { Appends out.old out.new (escape b) }
{
    if is_plain(b) {
        out.push_reserved(b);
    } else {
        push_number(out, b);
    }
}

fn push_escaped(out: &mut Vec<u8>, name: &[u8])
    requires { vec_len out.old + 3 * length name.now ≤ vec_capacity out.old }
    ensures { Appends out.old out.new (escaped name.now) }
{
    for b in name {
        push_escape(out, *b);
    }
}

// Appends a name, where there is room for three characters a byte and one more.
#[tactic(auto, using(crate::proofs::NameLaws::name_again, crate::proofs::Lengths::length_escaped))]
pub fn write_name(out: &mut Vec<u8>, name: &[u8]) -> Result<(), NoRoom>
    ensures written { Writes out.old out.new result (3 * length name.now + 1) (name_text name.now) }
    ensures law { NameAgain name.now }
{
    need_room(out, name.len().saturating_mul(3).saturating_add(1))?;
    if name.is_empty() {
        out.push_reserved(b'%');
    } else {
        push_escaped(out, name);
    }
    Ok(())
}

// The byte that two digits say; one that stands for itself is not written by its number.
fn numbered_byte(high: u8, low: u8) -> Option<u8>
    ensures { result ≡ number_in high low }
{
    let b = pair_value(high, low)?;
    (!is_plain(b)).then_some(b)
}

// The first byte of a name, and what is left of its word.
fn first_byte<'a>(w: &'a [u8]) -> Option<(u8, &'a [u8])>
    ensures value { option_map byte_and_rest result ≡ byte_in w.now }
    ensures shorter { IfSome result (λ x. length x.1.now + 1 ≤ length w.now) }
{
    match w {
        [b'%', high, low, rest @ ..] => Some((numbered_byte(*high, *low)?, rest)),
        [b, rest @ ..] if is_plain(*b) => Some((*b, rest)),
        _ => None,
    }
}

#[tactic(auto, using(crate::proofs::NameLoop::name_none, crate::proofs::NameLoop::name_full, crate::proofs::NameLoop::name_more, crate::proofs::NameLoop::name_ends))]
fn read_escaped(out: &mut Vec<u8>, w: &[u8]) -> Option<()>
    requires { (vec_len out.old ≡ 0) × (255 ≤ vec_capacity out.old) }
    ensures value { option_map (λ _. out.new.items) result ≡ ahead out.old.items (name_from 255 w.now) }
    ensures cap { vec_capacity out.new ≡ vec_capacity out.old }
{
    let mut rest = w;
    while !rest.is_empty() {
        let (byte, tail) = first_byte(rest)?;
        if out.len() >= LONGEST {
            return None;
        }
        out.push_reserved(byte);
        rest = tail;
    }
    Some(())
}

// Reads a word into a buffer that has room for the longest name, in the place of what it held.
#[tactic(auto, using(crate::proofs::NameLaws::name_line))]
pub fn read_name(out: &mut Vec<u8>, w: &[u8]) -> Result<(), Unread>
    ensures value { read_as result out.new.items ≡ (if nat_le 255 (vec_capacity out.old) then ok_or (name_in w.now) Unread.Malformed else Err Unread.NoRoom) }
    ensures cap { vec_capacity out.new ≡ vec_capacity out.old }
    ensures law { WrittenBack name_in name_text w.now }
{
    out.clear();
    if out.capacity() < LONGEST {
        return Err(Unread::NoRoom);
    }
    match w {
        b"%" => Ok(()),
        [] => Err(Unread::Malformed),
        _ => read_escaped(out, w).ok_or(Unread::Malformed),
    }
}
