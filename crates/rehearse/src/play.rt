// A script as it is played.
use codec::answer::{Answer, Refusal};
use console::Console;
use ids::CallNumber;
use interim::Waiting;
use lines::event::read_desk;
use lines::shape::{Scratch, Shape};
use printing::told::write_answer;
use script::step::Step;
use std::io;
use std::io::Write;

// A desk's place, and how many calls wait there. A desk that is not there keeps its count beside the flag: `desks` brings it back with it.
#[derive(Clone, Copy)]
struct Seat {
    there: bool,
    waiting: Waiting,
}

impl Seat {
    fn new(there: bool) -> Seat {
        Seat {
            there,
            waiting: Waiting::new(),
        }
    }
}

// The places of desks 1 to 8. No session is built yet, so nothing is sent and nothing answered.
#[derive(Clone, Copy)]
struct Seats([Seat; 8]);

impl Seats {
    fn empty() -> Seats {
        Seats([Seat::new(false); 8])
    }

    fn of(&mut self, desk: u8) -> Option<&mut Seat> {
        let seats = self.0.as_mut_slice();
        seats.get_mut(usize::from(desk).checked_sub(1)?)
    }

    // The first so many desks are there.
    fn fill(&mut self, count: u8) {
        for (i, seat) in self.0.iter_mut().enumerate() {
            seat.there = i < usize::from(count);
        }
    }

    // A desk is there from now on, or no longer; what waited at it is forgotten.
    fn set(&mut self, desk: u8, there: bool) {
        if let Some(seat) = self.of(desk) {
            *seat = Seat::new(there);
        }
    }

    fn call(&mut self, desk: u8, shape: Shape, console: &mut Console) -> io::Result<()> {
        let Shape::Asked(call, _) = shape else {
            return console.report("it is no call");
        };
        match self.of(desk) {
            Some(seat) if seat.there => seat
                .waiting
                .add()
                .or_else(|refusal| hand_back(desk, call, refusal, console)),
            _ => console.report("that desk is not there"),
        }
    }

    // Plays one step of a script. Time, beats, darkness and messages have nothing to act on yet.
    fn play(
        &mut self,
        step: Step<'_>,
        scratch: &mut Scratch,
        console: &mut Console,
    ) -> io::Result<()> {
        match step {
            Step::Desks { count } => self.fill(count),
            Step::Fall { desk } => self.set(desk, false),
            Step::Come { desk } => self.set(desk, true),
            Step::Call { desk, line } => match read_desk(scratch, line) {
                Ok(shape) => self.call(desk, shape, console)?,
                Err(error) => console.report(error)?,
            },
            _ => {}
        }
        Ok(())
    }
}

// Says that a call is handed back, since it finds no place to wait.
fn hand_back(
    desk: u8,
    call: CallNumber,
    refusal: Refusal,
    console: &mut Console,
) -> io::Result<()> {
    write!(&mut console.text, "{desk} ")?;
    let _ = write_answer(&mut console.text, call, Answer::No(refusal));
    console.say()
}

#[derive(Drop)]
pub struct Play {
    // none before anything was played since the last script ended
    seats: Option<Seats>,
}

impl Play {
    pub fn new() -> Play {
        Play { seats: None }
    }

    // Says what became of the script, and makes ready for the next.
    pub fn end(&mut self, console: &mut Console) -> io::Result<()> {
        if self.seats.take().is_none() {
            return Ok(());
        }
        write!(&mut console.text, "letters 0\nno call was done\n")?;
        console.say()
    }

    fn script(&mut self, name: &[u8], console: &mut Console) -> io::Result<()> {
        self.end(console)?;
        self.seats = Some(Seats::empty());
        console.text.extend_from_slice(b"script ")?;
        console.text.extend_from_slice(name)?;
        console.text.push(b'\n')?;
        console.say()
    }

    // Plays one step.
    pub fn step(
        &mut self,
        step: Step<'_>,
        scratch: &mut Scratch,
        console: &mut Console,
    ) -> io::Result<()> {
        if let Step::Script { name } = step {
            return self.script(name, console);
        }
        // (`get_or_insert` gets no proof here: the kit's borrow checker stops at the type of the seats.)
        let mut seats = self.seats.unwrap_or(Seats::empty());
        seats.play(step, scratch, console)?;
        self.seats = Some(seats);
        Ok(())
    }
}
