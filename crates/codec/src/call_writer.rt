// Calls written as bytes, behind others for which there is room.
#![tactic(auto, using(std::proofs::lemmas::List::append_assoc))]

ghost use Rattle.std.specs.Prelude.{◌≡◌, ◌+◌, ◌^◌, ◌<◌, ◌≤◌, ◌↔◌, ◌++◌, is_ok, if◌then◌else◌, vec_len, vec_capacity, IsOk, IfSome};
ghost use Rattle.std.specs.Option.{SomeIff};
ghost use Rattle.promise.specs.Layout.{expect_out, encode_call};
ghost use Rattle.codec.specs.Appends.{Appends, AppendsOrKeeps};
ghost use Rattle.codec.specs.Calls.{call_of, expect_of};
ghost use Rattle.codec.specs.CallParts.{rest_out, expect_size, rest_size, call_size, RestFits, CallFits};

use crate::DoesNotFit;
use crate::append::*;
use crate::call::*;

fn expect_size(expect: Expect) -> usize
    ensures { result ≡ expect_size (expect_of expect) }
{
    match expect {
        Expect::Any => 1,
        Expect::Just(_) => 9,
    }
}

// How many bytes follow the name of a call; None where a length does not fit its field.
fn rest_size(c: Call<'_>) -> Option<usize>
    ensures size { SomeIff result (RestFits (call_of c.entry)) (rest_size (call_of c.entry)) }
    ensures bound { IfSome result (λ n. n < 2 ^ 33) }
{
    match c {
        Call::Read { .. } => Some(8),
        Call::Put { expect, bytes, .. } => Some(expect_size(expect) + bytes_size(bytes)?),
        Call::Patch { expect, bytes, .. } => Some(4 + expect_size(expect) + bytes_size(bytes)?),
        Call::Remove { expect, .. } => Some(expect_size(expect)),
        Call::Rename { new, .. } => name_size(new),
        Call::Names { .. } => Some(2),
        Call::Take { .. } => Some(1),
        Call::LetGo { .. } => Some(0),
    }
}

fn append_expect(v: &mut Vec<u8>, expect: Expect)
    requires { vec_len v.old + expect_size (expect_of expect) ≤ vec_capacity v.old }
    ensures { Appends v.old v.new (expect_size (expect_of expect)) (expect_out (expect_of expect)) }
{
    match expect {
        Expect::Any => v.push_reserved(0),
        Expect::Just(edition) => {
            v.push_reserved(1);
            append_number(v, edition.0);
        }
    }
}

// What follows the name of a call.
fn append_rest(v: &mut Vec<u8>, c: Call<'_>)
    requires fits { RestFits (call_of c) }
    requires room { vec_len v.old + rest_size (call_of c) ≤ vec_capacity v.old }
    ensures { Appends v.old v.new (rest_size (call_of c.entry)) (rest_out (call_of c.entry)) }
{
    match c {
        Call::Read { start, most, .. } => {
            append_number(v, start);
            append_number(v, most);
        }
        Call::Put { expect, bytes, .. } => {
            append_expect(v, expect);
            append_bytes(v, bytes);
        }
        Call::Patch {
            at,
            expect,
            bytes,
            ..
        } => {
            append_number(v, at);
            append_expect(v, expect);
            append_bytes(v, bytes);
        }
        Call::Remove { expect, .. } => append_expect(v, expect),
        Call::Rename { new, .. } => append_name(v, new),
        Call::Names { most, .. } => append_number(v, most),
        Call::Take { alone, .. } => v.push_reserved(u8::from(alone)),
        Call::LetGo { .. } => {}
    }
}

// A call behind what is there already. Where it does not fit, all stays as it was.
#[tactic(auto, using(std::proofs::lemmas::List::append_assoc, crate::proofs::CallsOut::call_parts))]
pub fn write_call(v: &mut Vec<u8>, c: Call<'_>) -> Result<(), DoesNotFit>
    ensures fits { IsOk result ↔ (CallFits (call_of c.entry) × (vec_len v.old + call_size (call_of c.entry) ≤ vec_capacity v.old)) }
    ensures written { AppendsOrKeeps result v.old v.new (call_size (call_of c.entry)) (encode_call (call_of c.entry)) }
{
    let name = name_size(c.name()).ok_or(DoesNotFit)?;
    let rest = rest_size(c).ok_or(DoesNotFit)?;
    check_room(v, 1 + name + rest)?;
    v.push_reserved(c.kind() as u8);
    append_name(v, c.name());
    append_rest(v, c);
    Ok(())
}
