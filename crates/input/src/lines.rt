// The line that is being read, and what a chunk of input adds to it.
ghost use Rattle.std.specs.Prelude.{◌≡◌, ◌+◌, ◌<◌, ◌≤◌, ◌++◌, length, IfOk, vec_len, vec_capacity, position, ◌==◌};
ghost use Rattle.std.specs.Option.{option_map};
ghost use Rattle.input.specs.Lines.{Line, nothing, grown, fed, ended, line_of};

use std::alloc::{AllocError, Global};
use std::marker::Model;

#[derive(Drop)]
pub struct LineBuffer {
    bytes: Vec<u8>,
    // a flag, and no enum round the bytes: their memory is reserved once, and kept while a long line is passed over
    overlong: bool,
    longest: usize,
}

impl Model for LineBuffer {
    ghost Value = { Line };

    ghost view = { λ b. record { longest = b.longest; held = record { bytes = b.bytes.items; overlong = b.overlong } } };

    ghost invariant = { λ b. (vec_len b.bytes ≤ b.longest) × (b.longest ≤ vec_capacity b.bytes) };
}

// Where the first newline stands.
fn newline(chunk: &[u8]) -> Option<usize>
    ensures { result ≡ position (λ b. b == 10) chunk.now }
{
    chunk.iter().position(|b| *b == b'\n')
}

impl LineBuffer {
    // An empty buffer for lines of up to so many bytes.
    pub fn reserve(heap: Global, longest: usize) -> Result<LineBuffer, AllocError>
        ensures { IfOk result (λ b. b ≡ record { longest = longest; held = nothing }) }
    {
        let bytes = Vec::with_capacity(heap, longest)?;
        Ok(LineBuffer {
            bytes,
            overlong: false,
            longest,
        })
    }

    // A further piece of the line; a line that grows too long is forgotten, so that memory stays bounded.
    fn grow(&mut self, piece: &[u8])
        ensures { self.new ≡ record self.old { held = grown self.old.longest self.old.held piece.now } }
    {
        if self.overlong || piece.len() > self.longest - self.bytes.len() {
            self.overlong = true;
            self.bytes.clear();
            return;
        }
        let _ = self.bytes.extend_from_slice(piece);
    }

    // Takes the chunk up to its first newline; says how much that was where the line is complete.
    pub fn feed(&mut self, chunk: &[u8]) -> Option<usize>
        ensures line { self.new ≡ record self.old { held = fed self.old.longest self.old.held chunk.now } }
        ensures used { result ≡ ended chunk.now }
    {
        let Some(end) = newline(chunk) else {
            self.grow(chunk);
            return None;
        };
        self.grow(&chunk[..end]);
        Some(end + 1)
    }

    // The line without its newline; None if it was too long. What is held is never longer than a line may be: the type keeps it, and says so
    // here, since callers see no more of the buffer than its line.
    pub fn line(&self) -> Option<&[u8]>
        ensures value { option_map (λ x. x.now) result ≡ line_of self.now.held }
        ensures within { length self.now.held.bytes ≤ self.now.longest }
    {
        (!self.overlong).then_some(self.bytes.as_slice())
    }

    // Makes ready for the next line.
    pub fn clear(&mut self)
        ensures { self.new ≡ record self.old { held = nothing } }
    {
        self.overlong = false;
        self.bytes.clear();
    }
}
