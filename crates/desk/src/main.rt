// A desk as a program: lines in, lines out.
#![tactic(auto)]

use codec::answer::Answer;
use console::{Console, Handler, LONGEST_LINE, handle_lines, number_arguments};
use ids::CallNumber;
use interim::{MonotonicClock, Waiting, handle};
use lines::event::read_desk;
use lines::scratch::Event;
use lines::shape::Scratch;
use printing::told::write_answer;
use settings::desk_settings;
use std::io;

// What it knows: so far, its clock, and how many calls wait.
#[derive(Drop)]
struct Desk {
    clock: MonotonicClock,
    waiting: Waiting,
}

impl Desk {
    // The calls that wait are never answered; one that finds no place to wait is handed back at once.
    fn call(&mut self, number: CallNumber, console: &mut Console) -> io::Result<()> {
        let Err(refusal) = self.waiting.add() else {
            return Ok(());
        };
        let _ = write_answer(&mut console.text, number, Answer::No(refusal));
        console.say()
    }

    fn handle(&mut self, event: Event<'_>, console: &mut Console) -> io::Result<()> {
        match event {
            Event::Asked(call, _) => self.call(call, console),
            _ => handle(&mut self.clock, event, console),
        }
    }
}

// A program of its own, and no generic one for house and desk: they differ in what reads a line, in settings and in what is known.
#[derive(Drop)]
struct Program {
    scratch: Scratch,
    desk: Desk,
}

impl Handler for Program {
    fn line(&mut self, line: &[u8], console: &mut Console) -> io::Result<()> {
        match read_desk(&mut self.scratch, line) {
            Ok(shape) => self.desk.handle(self.scratch.event(shape), console),
            Err(error) => console.report(error),
        }
    }
}

fn run(rt: &HostRuntime) -> anyhow::Result<()> {
    desk_settings(number_arguments(rt)?.as_slice())?;
    let mut program = Program {
        scratch: Scratch::new(rt.alloc(), LONGEST_LINE)?,
        desk: Desk {
            clock: MonotonicClock::new(),
            waiting: Waiting::new(),
        },
    };
    handle_lines(rt, &mut program)?;
    Ok(())
}

fn main(rt: HostRuntime) -> anyhow::Result<()> {
    run(&rt)
}
