// One step of a script. The house is number 0, desks are 1 to 8.

// By how many hundredths of a per cent a clock runs wrong.
#[derive(Clone, Copy)]
pub enum Drift {
    Fast(u8),
    Slow(u8),
}

// What becomes of a message in flight; `Twice`: it is delivered and kept.
#[derive(Clone, Copy)]
pub enum Fate {
    Pass,
    Lose,
    Twice,
}

// A message in flight.
#[derive(Clone, Copy)]
pub enum Which {
    // the oldest of all
    Oldest,
    // the oldest from one to another
    OldestBetween { sender: u8, receiver: u8 },
    // the nth oldest from one to another, counted from 1
    NthBetween { sender: u8, receiver: u8, nth: u32 },
}

#[derive(Clone, Copy)]
pub enum Step<'a> {
    // a new script begins, with nothing left of the one before
    Script { name: &'a [u8] },
    // so many desks come at once
    Desks { count: u8 },
    // how many bytes the house and each desk are lent
    Memory { house: u64, desk: u64 },
    Rate { who: u8, drift: Drift },
    // true time goes by
    Time { ms: u64 },
    // a call at a desk: its line, from the call's number on
    Call { desk: u8, line: &'a [u8] },
    Beat { who: u8 },
    Deliver { fate: Fate, which: Which },
    // messages are delivered, the oldest first, until none is left
    PassAll,
    Dark,
    Light,
    Fall { desk: u8 },
    Come { desk: u8 },
}
