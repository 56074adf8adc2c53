// A program that handles the lines of standard input one after the other and prints lines. Nothing here is more than safe and sure to end
// with its input: no contract can say what a program reads or prints.
#![tactic(auto)]

ghost use Rattle.std.specs.Prelude.{◌≡◌, [], IfOk, OnOk};

use anyhow::anyhow;
use input::LineBuffer;
use std::alloc::AllocError;
use std::fmt::Display;
use std::io::{Read, Write};
use std::rt::{Stderr, Stdout};
use std::{env, io};
use text::decimal::read_decimal;

// A call of 1 MiB is a line of over two million characters; the largest one, with the longest name all in escapes, is 2,097,970.
pub const LONGEST_LINE: usize = 2_101_248;

// How much is read at once.
const CHUNK: usize = 65_536;

// Where lines are printed. They are put together in `text`, each with its newline, and then said or complained of as a whole.
#[derive(Drop)]
pub struct Console {
    pub text: Vec<u8>,
    // the number of the line in hand
    line: u64,
    out: Stdout,
    err: Stderr,
}

impl Console {
    // With room for any line that is printed.
    pub fn reserve(rt: &HostRuntime) -> Result<Console, AllocError>
        ensures { IfOk result (λ c. c.text.items ≡ []) }
    {
        let text = Vec::with_capacity(rt.alloc(), LONGEST_LINE)?;
        let out = rt.stdout();
        let err = rt.stderr();
        Ok(Console {
            text,
            line: 0,
            out,
            err,
        })
    }

    // The number of the line in hand, from 1; 0 before the first.
    pub fn line_number(&self) -> u64
        ensures { result ≡ self.now.line }
    {
        self.line
    }

    // Prints `text` on standard output, and empties it.
    pub fn say(&mut self) -> io::Result<()>
        ensures { OnOk result (self.new.text.items ≡ []) }
    {
        print(&mut self.text, &mut self.out)
    }

    // Prints `text` on standard error, and empties it.
    pub fn complain(&mut self) -> io::Result<()>
        ensures { OnOk result (self.new.text.items ≡ []) }
    {
        print(&mut self.text, &mut self.err)
    }

    // Reports the line in hand, which says nothing, with its number and why.
    pub fn report<D: Display + Drop>(&mut self, why: D) -> io::Result<()>
        ensures { OnOk result (self.new.text.items ≡ []) }
    {
        let number = self.line_number();
        write!(&mut self.text, "line {number}: {why}\n")?;
        self.complain()
    }
}

fn print<W: Write>(text: &mut Vec<u8>, to: &mut W) -> io::Result<()>
    ensures { OnOk result (text.new.items ≡ []) }
{
    to.write_all(text.as_slice())?;
    text.clear();
    to.flush()
}

// What a program does with each line. A trait, and no closure: to pass one is to owe that it may be called, and public functions require nothing.
pub trait Handler {
    // A line, without its newline.
    fn line(&mut self, line: &[u8], console: &mut Console) -> io::Result<()>;
}

// Standard input as far as it was read: the line that is being read, and what its lines are handed to.
#[derive(Drop)]
struct Lines<'a, H> {
    handler: &'a mut H,
    buffer: LineBuffer,
    console: Console,
}

impl<H: Handler> Lines<'_, H> {
    // Hands a line that is complete to the handler.
    fn complete(&mut self) -> io::Result<()> {
        self.console.line = self.console.line.saturating_add(1);
        match self.buffer.line() {
            Some(line) => self.handler.line(line, &mut self.console)?,
            None => self.console.report("it is too long")?,
        }
        self.buffer.clear();
        Ok(())
    }

    // Handles the lines that a chunk of input completes.
    fn feed(&mut self, chunk: &[u8]) -> io::Result<()> {
        let mut rest = chunk;
        while let Some(used) = self.buffer.feed(rest) {
            self.complete()?;
            rest = &rest[used..];
        }
        Ok(())
    }

    // The last line counts also where no newline ends it.
    fn end(&mut self) -> io::Result<()> {
        match self.buffer.line() {
            Some([]) => Ok(()),
            _ => self.complete(),
        }
    }
}

// Handles every line of standard input, to its end.
pub fn handle_lines<H: Handler>(rt: &HostRuntime, handler: &mut H) -> io::Result<()> {
    let heap = rt.alloc();
    let mut lines = Lines {
        handler,
        buffer: LineBuffer::reserve(heap, LONGEST_LINE)?,
        console: Console::reserve(rt)?,
    };
    let mut chunk = vec![in heap; 0u8; CHUNK]?;
    let mut stdin = rt.stdin();
    for _ in 0..u64::MAX {
        let count = stdin.read(chunk.as_mut_slice())?;
        if count == 0 {
            break;
        }
        lines.feed(&chunk[0..count])?;
    }
    lines.end()
}

// The numbers on the command line.
pub fn number_arguments(rt: &HostRuntime) -> anyhow::Result<Vec<u64>> {
    let not_a_number = || anyhow!("an argument is not a number");
    env::args(rt)?
        .skip(1)
        .map(|word| read_decimal(word.as_bytes(), u64::MAX).ok_or_else(not_a_number))
        .try_collect(rt.alloc())
}
