// Words, with one space between them.
ghost use Rattle.std.specs.Prelude.{◌≡◌, ℕ, ◌+◌, ◌≤◌, length, IfSome, position, ◌==◌};
ghost use Rattle.std.specs.Option.{option_map};
ghost use Rattle.text.specs.Words.{word_len, first_in, word_in, both};

fn space_at(line: &[u8]) -> Option<usize>
    ensures { result ≡ position (λ b. b == 32) line.now }
{
    line.iter().position(|b| *b == b' ')
}

// How many bytes stand before the first space.
#[tactic(auto, using(crate::proofs::WordLaws::first_space))]
fn word_len(line: &[u8]) -> usize
    ensures value { result ≡ word_len line.now }
    ensures bound { result ≤ length line.now }
{
    space_at(line).unwrap_or(line.len())
}

// The word at the beginning, and the rest, which is empty or begins with a space.
pub fn first_word<'a>(line: &'a [u8]) -> Option<(&'a [u8], &'a [u8])>
    ensures value { option_map both result ≡ first_in line.now }
    ensures shorter { IfSome result (λ x. length x.0.now + length x.1.now ≤ length line.now) }
{
    match word_len(line) {
        0 => None,
        n => Some(line.split_at(n)),
    }
}

// The word behind a space, and the rest.
pub fn next_word<'a>(rest: &'a [u8]) -> Option<(&'a [u8], &'a [u8])>
    ensures value { option_map both result ≡ word_in rest.now }
    ensures shorter { IfSome result (λ x. length x.0.now + length x.1.now ≤ length rest.now) }
{
    match rest {
        [b' ', line @ ..] => first_word(line),
        _ => None,
    }
}
