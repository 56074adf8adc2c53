// The house as a program: lines in, lines out.
#![tactic(auto)]

use console::{Console, Handler, LONGEST_LINE, handle_lines, number_arguments};
use interim::{MonotonicClock, handle};
use lines::event::read_house;
use lines::shape::Scratch;
use settings::house_settings;
use std::io;

// What the house knows: so far, its clock.
// A program of its own, and no generic one for house and desk: they differ in what reads a line, in settings and in what is known.
#[derive(Drop)]
struct Program {
    scratch: Scratch,
    clock: MonotonicClock,
}

impl Handler for Program {
    fn line(&mut self, line: &[u8], console: &mut Console) -> io::Result<()> {
        match read_house(&mut self.scratch, line) {
            Ok(shape) => handle(&mut self.clock, self.scratch.event(shape), console),
            Err(error) => console.report(error),
        }
    }
}

fn run(rt: &HostRuntime) -> anyhow::Result<()> {
    house_settings(number_arguments(rt)?.as_slice())?;
    let mut program = Program {
        scratch: Scratch::new(rt.alloc(), LONGEST_LINE)?,
        clock: MonotonicClock::new(),
    };
    handle_lines(rt, &mut program)?;
    Ok(())
}

fn main(rt: HostRuntime) -> anyhow::Result<()> {
    run(&rt)
}
