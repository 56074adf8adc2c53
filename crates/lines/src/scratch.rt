// The buffers that a line is read into, and what they say with the line's shape.
ghost use Rattle.std.specs.Prelude.{◌≡◌, ◌≤◌, ◌↔◌, IfOk, IsTrue};
ghost use Rattle.codec.specs.Calls.{call_of};
ghost use Rattle.lines.specs.CallLines.{formed};
ghost use Rattle.lines.specs.Events.{shape_of};
ghost use Rattle.lines.specs.Room.{Roomy};
ghost use Rattle.lines.specs.Views.{event_of};

use crate::shape::{Form, Scratch, Shape};
use codec::call::Call;
use ids::{CallNumber, Clock};
use std::alloc::{AllocError, Global};
use text::name::LONGEST;

// What a line says. Names, bytes and the word of `sync` are parts of the buffers.
#[derive(Clone, Copy)]
pub enum Event<'a> {
    Clock(Clock),
    From(u64, &'a [u8]),
    Beat,
    Light,
    Sync(&'a [u8]),
    Asked(CallNumber, Option<Call<'a>>),
}

pub(crate) fn has_room(s: &Scratch, size: usize) -> bool
    ensures { IsTrue result ↔ Roomy s.now size }
{
    s.bytes.capacity() >= size
}

impl Scratch {
    // Room for any line of so many bytes.
    pub fn new(heap: Global, size: usize) -> Result<Scratch, AllocError>
        ensures { IfOk result (λ s. Roomy s size) }
    {
        let name = Vec::with_capacity(heap, LONGEST)?;
        let other = Vec::with_capacity(heap, LONGEST)?;
        let bytes = Vec::with_capacity(heap, size)?;
        Ok(Scratch { name, other, bytes })
    }

    fn call<'a>(&'a self, form: Form) -> Call<'a>
        ensures { call_of result ≡ formed self.now form }
    {
        let name = self.name.as_slice();
        let new = self.other.as_slice();
        let bytes = self.bytes.as_slice();
        match form {
            Form::Read { start, most } => Call::Read { name, start, most },
            Form::Put { expect } => Call::Put {
                name,
                expect,
                bytes,
            },
            Form::Patch { at, expect } => Call::Patch {
                name,
                at,
                expect,
                bytes,
            },
            Form::Remove { expect } => Call::Remove { name, expect },
            Form::Rename => Call::Rename { name, new },
            Form::Names { most } => Call::Names { after: name, most },
            Form::Take { alone } => Call::Take { name, alone },
            Form::LetGo => Call::LetGo { name },
        }
    }

    // What the line that was read last says; `shape` is what its reader gave.
    pub fn event<'a>(&'a self, shape: Shape) -> Event<'a>
        ensures { event_of result ≡ shape_of self.now shape }
    {
        match shape {
            Shape::Clock(time) => Event::Clock(time),
            Shape::From(from) => Event::From(from, self.bytes.as_slice()),
            Shape::Beat => Event::Beat,
            Shape::Light => Event::Light,
            Shape::Sync => Event::Sync(self.bytes.as_slice()),
            Shape::Asked(number, Some(form)) => Event::Asked(number, Some(self.call(form))),
            Shape::Asked(number, None) => Event::Asked(number, None),
        }
    }
}
