// One word behind a space, read as a name, bytes or an expected edition, and the rest of the line.
// That the rest is no longer is a clause of each reader: said once, as a lemma, it would have to be cited with its arguments at each use.
ghost use Rattle.std.specs.Prelude.{◌≡◌, ℕ, ◌*◌, ◌≤◌, length, IfSome, vec_capacity};
ghost use Rattle.std.specs.Option.{option_map};
ghost use Rattle.lines.specs.Fields.{name_word, hex_word, expect_word, expect_tail};
ghost use Rattle.text.specs.Hex.{hex_in};

use codec::call::Expect;
use ids::Edition;
use text::decimal::read_decimal;
use text::hex::read_hex;
use text::name::read_name;
use text::word::next_word;

pub(crate) fn name_word<'a>(buf: &mut Vec<u8>, rest: &'a [u8]) -> Option<&'a [u8]>
    requires { 255 ≤ vec_capacity buf.old }
    ensures value { option_map (λ x. (buf.new.items, x.now)) result ≡ name_word rest.now }
    ensures shorter { IfSome result (λ x. length x.now ≤ length rest.now) }
    ensures cap { vec_capacity buf.new ≡ vec_capacity buf.old }
{
    let (w, rest) = next_word(rest)?;
    read_name(buf, w).ok()?;
    Some(rest)
}

pub(crate) fn hex_into(buf: &mut Vec<u8>, w: &[u8]) -> Option<()>
    requires { length w.now ≤ 2 * vec_capacity buf.old }
    ensures value { option_map (λ _. buf.new.items) result ≡ hex_in w.now }
    ensures cap { vec_capacity buf.new ≡ vec_capacity buf.old }
{
    read_hex(buf, w).ok()
}

pub(crate) fn hex_word<'a>(buf: &mut Vec<u8>, rest: &'a [u8]) -> Option<&'a [u8]>
    requires { length rest.now ≤ 2 * vec_capacity buf.old }
    ensures value { option_map (λ x. (buf.new.items, x.now)) result ≡ hex_word rest.now }
    ensures cap { vec_capacity buf.new ≡ vec_capacity buf.old }
{
    let (w, rest) = next_word(rest)?;
    hex_into(buf, w)?;
    Some(rest)
}

pub(crate) fn expect_word<'a>(rest: &'a [u8]) -> Option<(Expect, &'a [u8])>
    ensures value { option_map expect_tail result ≡ expect_word rest.now }
    ensures shorter { IfSome result (λ x. length x.1.now ≤ length rest.now) }
{
    let (w, rest) = next_word(rest)?;
    let expect = match w {
        b"any" => Expect::Any,
        _ => Expect::Just(Edition(read_decimal(w, u64::MAX)?)),
    };
    Some((expect, rest))
}
