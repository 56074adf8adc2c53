// Calls that wait at a desk.
ghost use Rattle.std.specs.Prelude.{◌≡◌, ℕ, ◌+◌, ◌<◌, ◌≤◌, ◌↔◌, IsOk, OnOk, OnErr, IfErr};

use codec::answer::Refusal;
use std::marker::Model;

// How many calls wait at most.
const SLOTS: u8 = 8;

// How many calls wait. None is ever answered, since nobody may be told anything before the house has answered.
#[derive(Clone, Copy)]
pub struct Waiting {
    calls: u8,
}

impl Model for Waiting {
    ghost Value = { ℕ };

    ghost view = { λ w. w.calls };

    ghost inverse = { λ n. record { calls = n } };

    ghost invariant = { λ w. w.calls ≤ 8 };
}

impl Waiting {
    pub fn new() -> Waiting
        ensures { result ≡ 0 }
    {
        Waiting { calls: 0 }
    }

    // One call more waits, unless eight do: then it is handed back.
    pub fn add(&mut self) -> Result<(), Refusal>
        ensures room { IsOk result ↔ (self.old < 8) }
        ensures counted { OnOk result (self.new ≡ self.old + 1) }
        ensures kept { OnErr result (self.new ≡ self.old) }
        ensures refusal { IfErr result (λ refusal. refusal ≡ Refusal.EightWait) }
    {
        if self.calls >= SLOTS {
            return Err(Refusal::EightWait);
        }
        self.calls += 1;
        Ok(())
    }
}
