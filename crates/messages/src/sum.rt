// The sum that stands in every message.
ghost use Rattle.std.specs.Prelude.{◌≡◌, ◌+◌, ◌-◌, ◌<◌, ◌≤◌, ◌++◌, length, replicate};
ghost use Rattle.promise.specs.Bytes.{Bytes};
ghost use Rattle.codec.specs.Sum.{word, mixed, joined, lane_to, sum_of};
ghost use Rattle.messages.specs.Lanes.{LanesAt, MixedIn};

use codec::Number;

#[derive(Clone, Copy)]
struct Lanes {
    first: u64,
    second: u64,
    third: u64,
    fourth: u64,
}

fn mix(h: u64, word: u64) -> u64
    ensures { result ≡ mixed h word }
{
    (h ^ (word ^ (word >> 32))).wrapping_mul(0x9E37_79B9_7F4A_7C15)
}

// Bytes, and zeros behind them.
fn padded(b: &[u8]) -> [u8; 32]
    requires { length b.now ≤ 32 }
    ensures { result ≡ b.now ++ replicate (32 - length b.now) 0 }
{
    let mut block = [0; 32];
    block[..b.len()].copy_from_slice(b);
    block
}

impl Lanes {
    #[tactic(auto, unfolding(codec::specs::Sum::lane_to))]
    fn new() -> Lanes
        ensures { (b : Bytes) → LanesAt result b 0 }
    {
        Lanes {
            first: 0xCBF2_9CE4_8422_2325,
            second: 0xCBF2_9CE4_8422_2326,
            third: 0xCBF2_9CE4_8422_2327,
            fourth: 0xCBF2_9CE4_8422_2328,
        }
    }

    // Four words more.
    #[tactic(auto, using(crate::proofs::Words::word_chunk))]
    fn mixed_with(self, block: &[u8; 32]) -> Lanes
        ensures { MixedIn self result block.now }
    {
        let (words, _) = block.as_chunks::<8>();
        Lanes {
            first: mix(self.first, Number::from_be(&words[0])),
            second: mix(self.second, Number::from_be(&words[1])),
            third: mix(self.third, Number::from_be(&words[2])),
            fourth: mix(self.fourth, Number::from_be(&words[3])),
        }
    }

    fn join(self) -> u64
        ensures { result ≡ joined self.first self.second self.third self.fourth }
    {
        mix(
            mix(mix(mix(0, self.first), self.second), self.third),
            self.fourth,
        )
    }
}

pub(crate) fn sum(b: &[u8]) -> u64
    ensures { result ≡ sum_of b.now }
{
    let mut lanes = Lanes::new();
    let (blocks, rest) = b.as_chunks::<32>();
    for block in blocks {
        lanes = lanes.mixed_with(block);
    }
    if !rest.is_empty() {
        lanes = lanes.mixed_with(&padded(rest));
    }
    lanes.join()
}
