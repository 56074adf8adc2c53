// What a writer or a reader answers that has no room.
ghost use Rattle.std.specs.Prelude.{◌≡◌, ◌+◌, ◌≤◌, ◌↔◌, IsOk, Some, codes, vec_len, vec_capacity};
ghost use Rattle.text.specs.Readings.{unread_text};

use std::error::Error;
use std::fmt;

// There is no room to write; nothing was written.
#[derive(Clone, Copy, PartialEq, Eq, Debug)]
pub struct NoRoom;

// Why a word was not read into a buffer.
#[derive(Clone, Copy, PartialEq, Eq, Debug)]
pub enum Unread {
    Malformed,
    NoRoom,
}

impl fmt::Display for NoRoom {
    ghost output = { λ _. Some (codes "no room to write") };

    fn fmt<W: fmt::Write>(&self, f: &mut fmt::Formatter<W>) -> fmt::Result {
        f.write_str("no room to write")
    }
}

impl Error for NoRoom {}

impl fmt::Display for Unread {
    ghost output = { λ unread. Some (unread_text unread) };

    fn fmt<W: fmt::Write>(&self, f: &mut fmt::Formatter<W>) -> fmt::Result {
        f.write_str(match self {
            Unread::Malformed => "malformed",
            Unread::NoRoom => "no room to read into",
        })
    }
}

impl Error for Unread {}

// Whether a buffer has room for so many bytes more.
pub fn need_room(out: &Vec<u8>, size: usize) -> Result<(), NoRoom>
    ensures { IsOk result ↔ (vec_len out.now + size ≤ vec_capacity out.now) }
{
    if out.capacity() - out.len() < size {
        return Err(NoRoom);
    }
    Ok(())
}
