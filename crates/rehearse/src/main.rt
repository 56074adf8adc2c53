// Plays scripts with a house and up to eight desks in memory.
#![tactic(auto)]

mod play;

use anyhow::ensure;
use console::{Console, Handler, LONGEST_LINE, handle_lines, number_arguments};
use lines::shape::Scratch;
use play::Play;
use script::read::read_step;
use std::io;

#[derive(Drop)]
struct Program {
    scratch: Scratch,
    play: Play,
}

impl Handler for Program {
    // An empty line, and one that begins with `#`, says nothing and is passed over.
    fn line(&mut self, line: &[u8], console: &mut Console) -> io::Result<()> {
        if let [] | [b'#', ..] = line {
            return Ok(());
        }
        match read_step(line) {
            Some(step) => self.play.step(step, &mut self.scratch, console),
            None => console.report("it is no step of a script"),
        }
    }
}

fn run(rt: &HostRuntime) -> anyhow::Result<()> {
    ensure!(number_arguments(rt)?.is_empty(), "usage: rehearse < SCRIPT");
    let mut program = Program {
        scratch: Scratch::new(rt.alloc(), LONGEST_LINE)?,
        play: Play::new(),
    };
    handle_lines(rt, &mut program)?;
    program.play.end(&mut Console::reserve(rt)?)?;
    Ok(())
}

fn main(rt: HostRuntime) -> anyhow::Result<()> {
    run(&rt)
}
