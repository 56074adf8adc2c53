// Decimal numbers, without leading zeros. They are read and printed by hand: no heap is used here, the room is exact, and `parse` takes other
// spellings too, such as `+7`.
ghost use Rattle.std.specs.Prelude.{◌≡◌, ℕ, ◌+◌, ◌<◌, ◌≤◌, length, IfSome, vec_len, vec_capacity};
ghost use Rattle.std.specs.Option.{option_map};
ghost use Rattle.text.specs.Laws.{WrittenBack, DecimalAgain};
ghost use Rattle.text.specs.Decimals.{digit_after, decimal_from, decimal_in, decimal_text, number_word, number_and_rest};
ghost use Rattle.text.specs.Writings.{Appends, Writes};

use crate::room::{NoRoom, need_room};
use crate::word::next_word;

// No 64-bit number has more digits.
pub const DIGITS: usize = 20;

// The number after one more digit, unless it is none or exceeds `most`.
fn digit_after(most: u64, n: u64, b: u8) -> Option<u64>
    ensures value { result ≡ digit_after most n b }
    ensures bound { IfSome result (λ m. m ≤ most) }
{
    if !b.is_ascii_digit() {
        return None;
    }
    let m = n.checked_mul(10)?.checked_add(u64::from(b - b'0'))?;
    (m <= most).then_some(m)
}

fn digits_from(most: u64, w: &[u8]) -> Option<u64>
    ensures value { result ≡ decimal_from most 0 w.now }
    ensures bound { IfSome result (λ m. m ≤ most) }
{
    let mut n = 0;
    for b in w {
        n = digit_after(most, n, *b)?;
    }
    Some(n)
}

// The number that a word says, if it is at most `most`.
#[tactic(auto, using(crate::proofs::NumeralLaws::decimal_line))]
pub fn read_decimal(w: &[u8], most: u64) -> Option<u64>
    ensures value { result ≡ decimal_in most w.now }
    ensures bound { IfSome result (λ n. n ≤ most) }
    ensures law { WrittenBack (decimal_in most) decimal_text w.now }
{
    match w {
        [] | [b'0', _, ..] => None,
        _ => digits_from(most, w),
    }
}

// A number of at most so much behind a space, and the rest.
pub fn next_number<'a>(rest: &'a [u8], most: u64) -> Option<(u64, &'a [u8])>
    ensures value { option_map number_and_rest result ≡ number_word most rest.now }
    ensures bound { IfSome result (λ x. x.0 ≤ most) }
    ensures shorter { IfSome result (λ x. length x.1.now ≤ length rest.now) }
{
    let (word, rest) = next_word(rest)?;
    Some((read_decimal(word, most)?, rest))
}

#[tactic(auto, using(crate::proofs::Numerals::length_step, crate::proofs::Numerals::length_digit))]
fn push_digits(out: &mut Vec<u8>, n: u64)
    requires { vec_len out.old + length (decimal_text n) ≤ vec_capacity out.old }
    ensures { Appends out.old out.new (decimal_text n) }
{
    if n >= 10 {
        push_digits(out, n / 10);
    }
    out.push_reserved(b'0' + (n % 10) as u8);
}

// Appends a number, where there is room for any.
#[tactic(auto, using(crate::proofs::Numerals::length_most, crate::proofs::NumeralLaws::decimal_again))]
pub fn write_decimal(out: &mut Vec<u8>, n: u64) -> Result<(), NoRoom>
    ensures written { Writes out.old out.new result 20 (decimal_text n) }
    ensures law { DecimalAgain n }
{
    need_room(out, DIGITS)?;
    push_digits(out, n);
    Ok(())
}
