// Equal parts of lent memory, each with a string.
ghost use Rattle.std.specs.Prelude.{◌≡◌, ◌+◌, ◌-◌, ◌/◌, ◌^◌, ◌<◌, ◌≤◌, ◌↔◌, true, [], length, drop, is_ok, IsOk, IfOk, All, vec_len, vec_capacity, slice_index_or, slice_set, replicate};
ghost use Rattle.parts.specs.Places.{HasPart, bodied, fitted, sealed_by};

use codec::DoesNotFit;
use ids::RequestId;
use messages::seal_request;
use std::alloc::{AllocError, Global};

// Each string has a head and a body behind it, and `size` bytes of memory that are reserved once.
#[derive(Drop)]
pub struct Parts {
    pub(crate) strings: Vec<Vec<u8>>,
    pub(crate) head: usize,
    pub(crate) size: usize,
    ghost headed: { head ≤ size },
    ghost placed: { All (HasPart head size) strings.items },
}

// Why there are no parts.
#[derive(Clone, Copy, Debug, PartialEq, Eq)]
pub enum PartsError {
    // what was lent is not enough for the heads, or there are to be no parts at all
    TooSmall,
    NoMemory,
}

impl From<AllocError> for PartsError {
    ghost use Rattle.parts.specs.declared.lent.PartsError.TheVariants.{NoMemory};

    ghost from_gives = { λ _ e. e ≡ NoMemory };

    fn from(_: AllocError) -> PartsError {
        PartsError::NoMemory
    }
}

fn new_string(heap: Global, head: usize, size: usize) -> Result<Vec<u8>, AllocError>
    requires { head ≤ size }
    ensures { IfOk result (λ v. (v.items ≡ replicate head 0) × HasPart head size v) }
{
    let mut string = Vec::with_capacity(heap, size)?;
    string.resize(head, 0)?;
    Ok(string)
}

fn set_body(string: &mut Vec<u8>, head: usize, body: &[u8])
    requires { (head ≤ vec_len string.old) × (head + length body.now ≤ vec_capacity string.old) }
    ensures items { string.new.items ≡ bodied head string.old.items body.now }
    ensures back { drop head string.new.items ≡ body.now }
    ensures len { vec_len string.new ≡ head + length body.now }
    ensures capacity { vec_capacity string.old ≤ vec_capacity string.new }
{
    string.truncate(head);
    string.extend_from_slice(body).unwrap();
}

fn seal(string: &mut Vec<u8>, request: RequestId) -> Result<(), DoesNotFit>
    ensures fits { IsOk result ↔ ((30 ≤ vec_len string.old) × (vec_len string.old < 30 + 2 ^ 31)) }
    ensures items { string.new.items ≡ sealed_by (is_ok result) request.session.0 request.slot.0 request.seq.0 string.old.items }
    ensures len { vec_len string.new ≡ vec_len string.old }
    ensures capacity { vec_capacity string.new ≡ vec_capacity string.old }
{
    seal_request(string.as_mut_slice(), request)
}

impl Parts {
    ghost use Rattle.parts.specs.View.{parts_in, head_of, size_of, Begun};

    // The string j; there is none, so the empty one, past the last.
    pub fn get(&self, j: usize) -> &[u8]
        ensures value { result.now ≡ slice_index_or (parts_in self.now) j [] }
    {
        match self.strings.get(j) {
            Some(string) => string.as_slice(),
            None => &[],
        }
    }

    // Gives string j another body. One that is too long counts as the empty one.
    pub fn put(&mut self, j: usize, body: &[u8])
        ensures parts { parts_in self.new ≡ slice_set (parts_in self.old) j (bodied (head_of self.old) (slice_index_or (parts_in self.old) j []) (fitted (size_of self.old - head_of self.old) body.now)) }
        ensures back { j < length (parts_in self.old) → drop (head_of self.old) (slice_index_or (parts_in self.new) j []) ≡ fitted (size_of self.old - head_of self.old) body.now }
        ensures head { head_of self.new ≡ head_of self.old }
        ensures size { size_of self.new ≡ size_of self.old }
    {
        let body = fitting(self.size - self.head, body);
        if let Some(string) = self.strings.get_mut(j) {
            set_body(string, self.head, body);
        }
    }

    // Makes the slot's string a Request for the call that is its body. Where the head is too short for that, or the call too long, all stays
    // as it was.
    pub fn seal_request(&mut self, request: RequestId) -> Result<(), DoesNotFit>
        ensures fits { request.slot.0 < length (parts_in self.old) → 30 ≤ head_of self.old → size_of self.old < 30 + 2 ^ 31 → is_ok result ≡ true }
        ensures parts { parts_in self.new ≡ slice_set (parts_in self.old) request.slot.0 (sealed_by (is_ok result) request.session.0 request.slot.0 request.seq.0 (slice_index_or (parts_in self.old) request.slot.0 [])) }
        ensures head { head_of self.new ≡ head_of self.old }
        ensures size { size_of self.new ≡ size_of self.old }
    {
        let j = usize::from(request.slot.0);
        let string = self.strings.get_mut(j).ok_or(DoesNotFit)?;
        seal(string, request)
    }

    // So many strings in memory of so many bytes, each a head of zeros as yet.
    pub fn begin(heap: Global, lent: usize, count: usize, head: usize) -> Result<Parts, PartsError>
        ensures { Begun lent count head result }
    {
        if count == 0 || lent / count < head {
            return Err(PartsError::TooSmall);
        }
        let size = lent / count;
        let mut strings = Vec::with_capacity(heap, count)?;
        for _ in 0..count {
            strings.push_reserved(new_string(heap, head, size)?);
        }
        Ok(Parts {
            strings,
            head,
            size,
        })
    }
}

// What is too long counts as nothing.
fn fitting<'a>(room: usize, bytes: &'a [u8]) -> &'a [u8]
    ensures value { result.now ≡ fitted room bytes.now }
    ensures most { length result.now ≤ room }
{
    if bytes.len() <= room { bytes } else { &[] }
}
