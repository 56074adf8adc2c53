// Flips two or three bits of real messages, chosen by chance from a fixed seed, and counts how many are still read as messages.
#![tactic(auto)]

ghost use Rattle.std.specs.Prelude.{◌<◌};

use ids::{Grant, Nonce, RequestId, Seq, Session, SlotId};
use messages::{Message, read_message, write_message};
use std::io;

const TRIALS: u32 = 1_000_000;

// What the first message's numbers begin from, each later one's from one more.
const START: u64 = 0x9E37_79B9_7F4A_7C15;

// Numbers by chance: a xorshift generator.
#[derive(Clone, Copy)]
struct Chance(u64);

// The bits of a number of chance that bits of a message are chosen by.
fn drawn(number: u64) -> usize {
    (number >> 11) as usize
}

impl Chance {
    fn draw(&mut self) -> usize {
        drawn(self.next())
    }

    fn next(&mut self) -> u64 {
        self.0 ^= self.0 << 13;
        self.0 ^= self.0 >> 7;
        self.0 ^= self.0 << 17;
        self.0
    }
}

// The first of n, from one on and around, that is neither a nor b. (It divides by n itself, so that a number is divided once only: divisions are
// slow.)
fn other(from: usize, a: usize, b: usize, n: usize) -> usize
    requires { 0 < n }
{
    (0..3)
        .map(|k| from.wrapping_add(k) % n)
        .find(|bit| *bit != a && *bit != b)
        .unwrap_or(a)
}

// Which bits are flipped, each another.
#[derive(Clone, Copy)]
struct Damage {
    first: usize,
    second: usize,
    third: Option<usize>,
}

impl Damage {
    // Two or three bits of n by chance.
    fn of(mut chance: Chance, n: usize) -> Damage
        requires { 0 < n }
    {
        let first = chance.draw() % n;
        let second = other(chance.draw(), first, first, n);
        let last = chance.next();
        let third = (last % 2 == 0).then(|| other(drawn(last), first, second, n));
        Damage {
            first,
            second,
            third,
        }
    }

    // Done once more, it is taken back.
    fn flip(self, bytes: &mut [u8]) {
        flip(bytes, self.first);
        flip(bytes, self.second);
        if let Some(bit) = self.third {
            flip(bytes, bit);
        }
    }
}

fn flip(bytes: &mut [u8], bit: usize) {
    if let Some(byte) = bytes.get_mut(bit / 8) {
        *byte ^= 1 << (bit % 8);
    }
}

fn passes_damaged(message: &mut [u8], chance: Chance) -> bool {
    let n = message.len().wrapping_mul(8);
    if n == 0 {
        return read_message(message).is_some();
    }
    let damage = Damage::of(chance, n);
    damage.flip(message);
    let passes = read_message(message).is_some();
    damage.flip(message);
    passes
}

// How many of so many damaged copies are still read as messages.
fn passed(message: &mut [u8], trials: u32, mut chance: Chance) -> usize {
    (0..trials)
        .filter(|_| {
            chance.next();
            passes_damaged(message, chance)
        })
        .count()
}

fn messages<'a>(long: &'a [u8]) -> [Message<'a>; 8] {
    let nonce = Nonce(0x0123_4567_89ab_cdef);
    let session = Session(7);
    let request = RequestId {
        session,
        slot: SlotId(3),
        seq: Seq(41),
    };
    let grant = Grant(0);
    [
        Message::Hello { nonce },
        Message::Welcome { nonce, session },
        Message::Alive { session },
        Message::Request {
            request,
            call: b"\x08\x05lamps",
        },
        Message::Request {
            request,
            call: long,
        },
        Message::Response {
            request,
            grant,
            answer: b"\x01",
        },
        Message::Response {
            request,
            grant,
            answer: b"\x02\x00\x00\x00\x00\x00\x00\x00\x09",
        },
        Message::Response {
            request,
            grant,
            answer: long,
        },
    ]
}

fn main(rt: HostRuntime) -> io::Result<()> {
    let mut bytes = Vec::with_capacity(rt.alloc(), 4096)?;
    let mut count = 0usize;
    for (i, message) in messages(&[b'x'; 300]).into_iter().enumerate() {
        bytes.clear();
        let _ = write_message(&mut bytes, message);
        let chance = Chance(START.wrapping_add(i as u64));
        count = count.saturating_add(passed(bytes.as_mut_slice(), TRIALS / 8, chance));
    }
    println!(rt; "{TRIALS} damaged messages, {count} passed")
}
