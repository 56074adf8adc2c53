// Asking so that each call is done once. What house and desks do at each thing that comes is defined in specs/ (House, Desk, Code), for
// every state; that it keeps the promise, and with how few messages, stands on the contracts below.
#![tactic(auto)]

ghost use Rattle.std.specs.Prelude.{◌≤◌};
ghost use Rattle.asking.specs.Code.{SheetsKeepPromise};
ghost use Rattle.asking.specs.Sparing.{AnsweredBeforeDue, SecondWelcomeSendsNothing, SheetsSendOne, CallSendsOne, AnswerSendsNone, OneForEachCall};

// The longest retransmission time with which two minutes are enough for any desk, in ms of the desk's clock.
pub fn longest_retransmission() -> u64
    ensures { SheetsKeepPromise result }
{
    50_000
}

// The retransmission time of a program that was not told another: nothing is asked twice while no message is later than 10,000 ms.
pub fn usual_retransmission() -> u64
    ensures allowed { result ≤ 50000 }
    ensures sparing { (AnsweredBeforeDue result) × ((SecondWelcomeSendsNothing) × ((SheetsSendOne) × ((CallSendsOne) × (AnswerSendsNone)))) }
    ensures few { OneForEachCall }
{
    20_300
}
