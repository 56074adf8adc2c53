// Bytes read as a call.
ghost use Rattle.std.specs.Prelude.{◌≡◌};
ghost use Rattle.std.specs.Option.{option_map};
ghost use Rattle.promise.specs.Layout.{expect_in, alone_in, read_in, put_in, patch_in, remove_in, rename_in, names_call_in, take_in, let_go_in, call_in, decode_call};
ghost use Rattle.codec.specs.Statements.{CallsReadBack, CallsHaveOneForm};
ghost use Rattle.codec.specs.Calls.{call_of, expected, flagged, kind_number};

use crate::bytes::*;
use crate::call::*;
use ids::Edition;

fn read_expect(b: &[u8]) -> Option<(Expect, &[u8])>
    ensures { option_map expected result ≡ expect_in b.now }
{
    let (tag, rest) = read_number::<u8, _>(b)?;
    match tag {
        0 => Some((Expect::Any, rest)),
        1 => {
            let (edition, rest) = read_number(rest)?;
            Some((Expect::Just(Edition(edition)), rest))
        }
        _ => None,
    }
}

fn read_alone(b: &[u8]) -> Option<(bool, &[u8])>
    ensures { option_map flagged result ≡ alone_in b.now }
{
    let (tag, rest) = read_number::<u8, _>(b)?;
    match tag {
        0 => Some((false, rest)),
        1 => Some((true, rest)),
        _ => None,
    }
}

fn read_read(b: &[u8]) -> Option<Call<'_>>
    ensures { option_map call_of result ≡ read_in b.now }
{
    let (name, rest) = read_name(b)?;
    let (start, rest) = read_number(rest)?;
    let (most, rest) = read_number(rest)?;
    ended(Call::Read { name, start, most }, rest)
}

fn read_put(b: &[u8]) -> Option<Call<'_>>
    ensures { option_map call_of result ≡ put_in b.now }
{
    let (name, rest) = read_name(b)?;
    let (expect, rest) = read_expect(rest)?;
    let (bytes, rest) = read_bytes(rest)?;
    ended(
        Call::Put {
            name,
            expect,
            bytes,
        },
        rest,
    )
}

fn read_patch(b: &[u8]) -> Option<Call<'_>>
    ensures { option_map call_of result ≡ patch_in b.now }
{
    let (name, rest) = read_name(b)?;
    let (at, rest) = read_number(rest)?;
    let (expect, rest) = read_expect(rest)?;
    let (bytes, rest) = read_bytes(rest)?;
    ended(
        Call::Patch {
            name,
            at,
            expect,
            bytes,
        },
        rest,
    )
}

fn read_remove(b: &[u8]) -> Option<Call<'_>>
    ensures { option_map call_of result ≡ remove_in b.now }
{
    let (name, rest) = read_name(b)?;
    let (expect, rest) = read_expect(rest)?;
    ended(Call::Remove { name, expect }, rest)
}

fn read_rename(b: &[u8]) -> Option<Call<'_>>
    ensures { option_map call_of result ≡ rename_in b.now }
{
    let (name, rest) = read_name(b)?;
    let (new, rest) = read_name(rest)?;
    ended(Call::Rename { name, new }, rest)
}

fn read_names(b: &[u8]) -> Option<Call<'_>>
    ensures { option_map call_of result ≡ names_call_in b.now }
{
    let (after, rest) = read_name(b)?;
    let (most, rest) = read_number(rest)?;
    ended(Call::Names { after, most }, rest)
}

fn read_take(b: &[u8]) -> Option<Call<'_>>
    ensures { option_map call_of result ≡ take_in b.now }
{
    let (name, rest) = read_name(b)?;
    let (alone, rest) = read_alone(rest)?;
    ended(Call::Take { name, alone }, rest)
}

fn read_let_go(b: &[u8]) -> Option<Call<'_>>
    ensures { option_map call_of result ≡ let_go_in b.now }
{
    let (name, rest) = read_name(b)?;
    ended(Call::LetGo { name }, rest)
}

fn read_by_kind(kind: Kind, b: &[u8]) -> Option<Call<'_>>
    ensures { option_map call_of result ≡ call_in (kind_number kind) b.now }
{
    match kind {
        Kind::Read => read_read(b),
        Kind::Put => read_put(b),
        Kind::Patch => read_patch(b),
        Kind::Remove => read_remove(b),
        Kind::Rename => read_rename(b),
        Kind::Names => read_names(b),
        Kind::Take => read_take(b),
        Kind::LetGo => read_let_go(b),
    }
}

// The call that all of these bytes say; None where they are no call.
#[tactic(auto, using(crate::proofs::UnknownKinds::unknown_call, crate::proofs::CallsBack::calls_back), unfolding(promise::specs::Layout::decode_call))]
pub fn read_call(b: &[u8]) -> Option<Call<'_>>
    ensures value { option_map call_of result ≡ decode_call b.now }
    ensures back { CallsReadBack }
    ensures form { CallsHaveOneForm }
{
    // the reader's answer is taken apart by `let .. else`: docs/DECISIONS.md, "Code forms"; elsewhere `?` does it
    let Some((number, body)) = read_number::<u8, _>(b) else {
        return None;
    };
    read_by_kind(Kind::try_from(number).ok()?, body)
}
