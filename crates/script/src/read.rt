// Steps out of lines.
ghost use Rattle.std.specs.Prelude.{◌≡◌, ◌<◌, ◌≤◌, IfSome};
ghost use Rattle.std.specs.Option.{option_map};
ghost use Rattle.promise.specs.Bytes.{bind, ended};
ghost use Rattle.text.specs.Decimals.{number_word, number_and_rest};
ghost use Rattle.script.specs.Steps.{step_of, count_in, memory_in, drift_of, rate_in, nth_in, which_in, deliver_in, pass_in, call_in, script_in, numbers_in, begins_in, darkness_in, happens_in, message_in, step_in};

use crate::step::{Drift, Fate, Step, Which};
use text::decimal::{next_number, read_decimal};
use text::word::{first_word, next_word};

// A number that is not 0.
fn count<'a>(rest: &'a [u8], most: u64) -> Option<(u64, &'a [u8])>
    ensures value { option_map number_and_rest result ≡ count_in most rest.now }
    ensures bound { IfSome result (λ x. x.0 ≤ most) }
{
    let (n, rest) = next_number(rest, most)?;
    (n != 0).then_some((n, rest))
}

// The number of a desk, or of desks.
fn desk<'a>(rest: &'a [u8]) -> Option<(u8, &'a [u8])>
    ensures { option_map number_and_rest result ≡ count_in 8 rest.now }
{
    let (n, rest) = count(rest, 8)?;
    Some((n as u8, rest))
}

// The house's number or a desk's.
fn party<'a>(rest: &'a [u8]) -> Option<(u8, &'a [u8])>
    ensures { option_map number_and_rest result ≡ number_word 8 rest.now }
{
    let (n, rest) = next_number(rest, 8)?;
    Some((n as u8, rest))
}

// A number that was read, if nothing follows it.
fn last<T: Drop>(read: Option<(T, &[u8])>) -> Option<T>
    ensures { result ≡ bind read.entry (λ n. ended n.0 n.1.now) }
{
    let (n, rest) = read?;
    rest.is_empty().then_some(n)
}

#[tactic(auto, unfolding(crate::specs::Steps::script_in))]
fn script<'a>(rest: &'a [u8]) -> Option<Step<'a>>
    ensures { option_map step_of result ≡ script_in rest.now }
{
    let (name, rest) = next_word(rest)?;
    rest.is_empty().then_some(Step::Script { name })
}

#[tactic(auto, unfolding(crate::specs::Steps::memory_in))]
fn memory<'a>(rest: &'a [u8]) -> Option<Step<'a>>
    ensures { option_map step_of result ≡ memory_in rest.now }
{
    let (house, rest) = next_number(rest, u64::MAX)?;
    let (desk, rest) = next_number(rest, u64::MAX)?;
    rest.is_empty().then_some(Step::Memory { house, desk })
}

fn drift(word: &[u8]) -> Option<Drift>
    ensures { result ≡ drift_of word.now }
{
    match word {
        [b'-', digits @ ..] => match read_decimal(digits, 100)? {
            0 => None,
            n => Some(Drift::Slow(n as u8)),
        },
        _ => Some(Drift::Fast(read_decimal(word, 100)? as u8)),
    }
}

#[tactic(auto, unfolding(crate::specs::Steps::rate_in))]
fn rate<'a>(rest: &'a [u8]) -> Option<Step<'a>>
    ensures { option_map step_of result ≡ rate_in rest.now }
{
    let (who, rest) = party(rest)?;
    let (word, rest) = next_word(rest)?;
    let drift = drift(word)?;
    rest.is_empty().then_some(Step::Rate { who, drift })
}

fn nth(sender: u8, receiver: u8, rest: &[u8]) -> Option<Which>
    ensures { result ≡ nth_in sender receiver rest.now }
{
    if rest.is_empty() {
        return Some(Which::OldestBetween { sender, receiver });
    }
    let (nth, rest) = count(rest, u64::from(u32::MAX))?;
    rest.is_empty().then_some(Which::NthBetween {
        sender,
        receiver,
        nth: nth as u32,
    })
}

fn which(rest: &[u8]) -> Option<Which>
    ensures { result ≡ which_in rest.now }
{
    if rest.is_empty() {
        return Some(Which::Oldest);
    }
    let (sender, rest) = party(rest)?;
    let (receiver, rest) = party(rest)?;
    nth(sender, receiver, rest)
}

#[tactic(auto, unfolding(crate::specs::Steps::deliver_in))]
fn deliver<'a>(fate: Fate, rest: &'a [u8]) -> Option<Step<'a>>
    ensures { option_map step_of result ≡ deliver_in fate rest.now }
{
    let which = which(rest)?;
    Some(Step::Deliver { fate, which })
}

#[tactic(auto, unfolding(crate::specs::Steps::pass_in))]
fn pass<'a>(rest: &'a [u8]) -> Option<Step<'a>>
    ensures { option_map step_of result ≡ pass_in rest.now }
{
    match rest {
        b" all" => Some(Step::PassAll),
        _ => deliver(Fate::Pass, rest),
    }
}

#[tactic(auto, unfolding(crate::specs::Steps::call_in))]
fn call<'a>(word: &[u8], rest: &'a [u8]) -> Option<Step<'a>>
    ensures { option_map step_of result ≡ call_in word.now rest.now }
{
    let desk = read_decimal(word, 8)? as u8;
    match rest {
        [b' ', line @ ..] if desk != 0 => Some(Step::Call { desk, line }),
        _ => None,
    }
}

// How many desks there are, what clocks show, and calls.
#[tactic(auto, unfolding(crate::specs::Steps::numbers_in))]
fn numbers<'a>(word: &[u8], rest: &'a [u8]) -> Option<Step<'a>>
    ensures { option_map step_of result ≡ numbers_in word.now rest.now }
{
    match word {
        b"desks" => last(desk(rest)).map(|count| Step::Desks { count }),
        b"rate" => rate(rest),
        b"time" => last(next_number(rest, u64::MAX)).map(|ms| Step::Time { ms }),
        _ => call(word, rest),
    }
}

// What a script begins with.
#[tactic(auto, using(crate::proofs::Spelled::six_letters, crate::proofs::Spelled::first_differs), unfolding(crate::specs::Steps::begins_in))]
fn begins<'a>(word: &[u8], rest: &'a [u8]) -> Option<Step<'a>>
    ensures { option_map step_of result ≡ begins_in word.now rest.now }
{
    match word {
        b"script" => script(rest),
        b"memory" => memory(rest),
        _ => numbers(word, rest),
    }
}

// What happens to the messages in flight.
#[tactic(auto, unfolding(crate::specs::Steps::darkness_in))]
fn darkness<'a>(word: &[u8], rest: &'a [u8]) -> Option<Step<'a>>
    ensures { option_map step_of result ≡ darkness_in word.now rest.now }
{
    match word {
        b"dark" => rest.is_empty().then_some(Step::Dark),
        b"light" => rest.is_empty().then_some(Step::Light),
        _ => begins(word, rest),
    }
}

// What happens to house and desks.
#[tactic(auto, unfolding(crate::specs::Steps::happens_in))]
fn happens<'a>(word: &[u8], rest: &'a [u8]) -> Option<Step<'a>>
    ensures { option_map step_of result ≡ happens_in word.now rest.now }
{
    match word {
        b"beat" => last(party(rest)).map(|who| Step::Beat { who }),
        b"fall" => last(desk(rest)).map(|desk| Step::Fall { desk }),
        b"come" => last(desk(rest)).map(|desk| Step::Come { desk }),
        _ => darkness(word, rest),
    }
}

// The step that a line says. Each function here knows a few words and leaves the others to the next: the arms of one `match` of all words are
// unproved.
pub fn read_step<'a>(line: &'a [u8]) -> Option<Step<'a>>
    ensures { option_map step_of result ≡ step_in line.now }
{
    let (word, rest) = first_word(line)?;
    match word {
        b"pass" => pass(rest),
        b"lose" => deliver(Fate::Lose, rest),
        b"twice" => deliver(Fate::Twice, rest),
        _ => happens(word, rest),
    }
}
