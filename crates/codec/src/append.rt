// Numbers and parts appended to bytes whose room is reserved; numbers have their highest byte first.
#![tactic(auto, using(crate::proofs::Numbers::laid_out, std::proofs::lemmas::List::append_assoc))]

ghost use Rattle.std.specs.Prelude.{◌≡◌, ◌+◌, ◌^◌, ◌<◌, ◌≤◌, ◌↔◌, [], ◌∷◌, ◌++◌, length, IsOk, vec_len, vec_capacity};
ghost use Rattle.std.specs.Option.{SomeIff};
ghost use Rattle.promise.specs.Bytes.{be};
ghost use Rattle.promise.specs.Layout.{name_out, bytes_out};
ghost use Rattle.codec.specs.Appends.{Appends};

use crate::DoesNotFit;
use crate::bytes::Number;

// Whether there is room for so many bytes more.
pub(crate) fn check_room(v: &Vec<u8>, size: usize) -> Result<(), DoesNotFit>
    ensures { IsOk result ↔ (vec_len v.now + size ≤ vec_capacity v.now) }
{
    if v.capacity() - v.len() < size {
        return Err(DoesNotFit);
    }
    Ok(())
}

// Of `extend_from_slice` it is not proved that the capacity stays, as it must where memory is reserved once.
pub(crate) fn append(v: &mut Vec<u8>, more: &[u8])
    requires { vec_len v.old + length more.now ≤ vec_capacity v.old }
    ensures { Appends v.old v.new (length more.now) more.now }
{
    for &b in more {
        v.push_reserved(b);
    }
}

pub(crate) fn append_number<T: Number<N>, const N: usize>(v: &mut Vec<u8>, n: T)
    requires { vec_len v.old + N ≤ vec_capacity v.old }
    ensures { Appends v.old v.new N (be N (T.value n)) }
{
    append(v, &n.to_be());
}

// How many bytes a name takes with its length; None where this does not fit its one byte.
pub(crate) fn name_size(name: &[u8]) -> Option<usize>
    ensures { SomeIff result (length name.now < 256) (1 + length name.now) }
{
    (name.len() <= u8::MAX as usize).then_some(1 + name.len())
}

pub(crate) fn append_name(v: &mut Vec<u8>, name: &[u8])
    requires short { length name.now < 256 }
    requires room { vec_len v.old + (1 + length name.now) ≤ vec_capacity v.old }
    ensures { Appends v.old v.new (1 + length name.now) (name_out name.now) }
{
    append_number(v, name.len() as u8);
    append(v, name);
}

// How many bytes these take with their length; None where this does not fit its four bytes.
pub(crate) fn bytes_size(bytes: &[u8]) -> Option<usize>
    ensures { SomeIff result (length bytes.now < 2 ^ 32) (4 + length bytes.now) }
{
    (bytes.len() <= u32::MAX as usize).then_some(4 + bytes.len())
}

pub(crate) fn append_bytes(v: &mut Vec<u8>, bytes: &[u8])
    requires short { length bytes.now < 2 ^ 32 }
    requires room { vec_len v.old + (4 + length bytes.now) ≤ vec_capacity v.old }
    ensures { Appends v.old v.new (4 + length bytes.now) (bytes_out bytes.now) }
{
    append_number(v, bytes.len() as u32);
    append(v, bytes);
}
