// Bytes in lowercase hexadecimal; `-` stands for no bytes. Digits are read and printed by hand: no heap is used here, the room is exact, and
// `from_str_radix` takes other spellings too, such as `+7` and `FF`.
ghost use Rattle.std.specs.Prelude.{◌≡◌, ℕ, ◌+◌, ◌*◌, ◌/◌, ◌<◌, ◌≤◌, length, IfSome, if◌then◌else◌, Err, vec_len, vec_capacity, nat_le};
ghost use Rattle.std.specs.Option.{option_map, ok_or};
ghost use Rattle.text.specs.Laws.{WrittenBack, HexAgain};
ghost use Rattle.text.specs.Readings.{ahead, read_as};
ghost use Rattle.text.specs.Writings.{Appends, Writes};
ghost use Rattle.text.specs.Hex.{hex_digit, hex_value, hex_pair, hex_pairs, hex_text, pair_value, pairs_in, hex_in};

use crate::room::{NoRoom, Unread, need_room};

fn hex_digit(d: u8) -> u8
    requires { d < 16 }
    ensures { result ≡ hex_digit d }
{
    if d < 10 { b'0' + d } else { b'a' - 10 + d }
}

pub(crate) fn hex_value(b: u8) -> Option<u8>
    ensures value { result ≡ hex_value b }
    ensures small { IfSome result (λ d. d < 16) }
{
    match b {
        b'0'..=b'9' => Some(b - b'0'),
        b'a'..=b'f' => Some(b - b'a' + 10),
        _ => None,
    }
}

// The two digits of a byte.
pub(crate) fn push_pair(out: &mut Vec<u8>, b: u8)
    requires { vec_len out.old + 2 ≤ vec_capacity out.old }
    ensures { Appends out.old out.new (hex_pair b) }
{
    out.push_reserved(hex_digit(b / 16));
    out.push_reserved(hex_digit(b % 16));
}

#[tactic(auto, using(crate::proofs::Lengths::length_pairs))]
fn push_pairs(out: &mut Vec<u8>, bytes: &[u8])
    requires { vec_len out.old + 2 * length bytes.now ≤ vec_capacity out.old }
    ensures { Appends out.old out.new (hex_pairs bytes.now) }
{
    for b in bytes {
        push_pair(out, *b);
    }
}

// Appends bytes, where there is room for two characters each and one more.
#[tactic(auto, using(crate::proofs::HexLaws::hex_again, crate::proofs::Lengths::length_pairs))]
pub fn write_hex(out: &mut Vec<u8>, bytes: &[u8]) -> Result<(), NoRoom>
    ensures written { Writes out.old out.new result (2 * length bytes.now + 1) (hex_text bytes.now) }
    ensures law { HexAgain bytes.now }
{
    need_room(out, 2 * bytes.len() + 1)?;
    if bytes.is_empty() {
        out.push_reserved(b'-');
    } else {
        push_pairs(out, bytes);
    }
    Ok(())
}

pub(crate) fn pair_value(high: u8, low: u8) -> Option<u8>
    ensures { result ≡ pair_value high low }
{
    Some(hex_value(high)? * 16 + hex_value(low)?)
}

#[tactic(auto, using(crate::proofs::PairLoop::pairs_more), unfolding(crate::specs::Hex::pairs_in))]
fn read_pairs(out: &mut Vec<u8>, w: &[u8]) -> Option<()>
    requires { 2 * vec_len out.old + length w.now ≤ 2 * vec_capacity out.old }
    ensures value { option_map (λ _. out.new.items) result ≡ ahead out.old.items (pairs_in w.now) }
    ensures cap { vec_capacity out.new ≡ vec_capacity out.old }
{
    let mut rest = w;
    while let [high, low, tail @ ..] = rest {
        out.push_reserved(pair_value(*high, *low)?);
        rest = tail;
    }
    rest.is_empty().then_some(())
}

// Reads a word into a buffer, in the place of what it held.
#[tactic(auto, using(crate::proofs::HexLaws::hex_line))]
pub fn read_hex(out: &mut Vec<u8>, w: &[u8]) -> Result<(), Unread>
    ensures value { read_as result out.new.items ≡ (if nat_le (length w.now) (2 * vec_capacity out.old) then ok_or (hex_in w.now) Unread.Malformed else Err Unread.NoRoom) }
    ensures cap { vec_capacity out.new ≡ vec_capacity out.old }
    ensures law { WrittenBack hex_in hex_text w.now }
{
    out.clear();
    if w.len() > 2 * out.capacity() {
        return Err(Unread::NoRoom);
    }
    match w {
        b"-" => Ok(()),
        [] => Err(Unread::Malformed),
        _ => read_pairs(out, w).ok_or(Unread::Malformed),
    }
}
