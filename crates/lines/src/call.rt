// Calls as lines: what stands behind the call's number.
ghost use Rattle.std.specs.Prelude.{◌≡◌, ◌≤◌, length};
ghost use Rattle.std.specs.Option.{option_map};
ghost use Rattle.lines.specs.CallLines.{verb_in, read_line, put_line, patch_line, remove_line, rename_line, names_line, take_line, let_line, call_line, formed};
ghost use Rattle.lines.specs.Room.{room, Roomy};

use crate::field::{expect_word, hex_word, name_word};
use crate::shape::{Form, Scratch};
use codec::call::Kind;
use text::decimal::next_number;
use text::word::next_word;

const MOST_32: u64 = u32::MAX as u64;

const MOST_16: u64 = u16::MAX as u64;

#[tactic(auto, using(crate::proofs::Letters::read_in, crate::proofs::Letters::put_in, crate::proofs::Letters::patch_in, crate::proofs::Letters::remove_in, crate::proofs::Letters::rename_in, crate::proofs::Letters::names_in, crate::proofs::Letters::take_in, crate::proofs::Letters::let_in))]
pub(crate) fn verb_of(w: &[u8]) -> Option<Kind>
    ensures { result ≡ verb_in w.now }
{
    match w {
        b"read" => Some(Kind::Read),
        b"put" => Some(Kind::Put),
        b"patch" => Some(Kind::Patch),
        b"remove" => Some(Kind::Remove),
        b"rename" => Some(Kind::Rename),
        b"names" => Some(Kind::Names),
        b"take" => Some(Kind::Take),
        b"let" => Some(Kind::LetGo),
        _ => None,
    }
}

fn fill_read(s: &mut Scratch, rest: &[u8]) -> Option<Form>
    ensures value { option_map (formed s.new) result ≡ read_line rest.now }
    ensures room { room s.new ≡ room s.old }
{
    let rest = name_word(&mut s.name, rest)?;
    let (start, rest) = next_number(rest, MOST_32)?;
    let (most, rest) = next_number(rest, MOST_32)?;
    rest.is_empty().then_some(Form::Read {
        start: start as u32,
        most: most as u32,
    })
}

fn fill_put(s: &mut Scratch, rest: &[u8]) -> Option<Form>
    requires { Roomy s.old (length rest.now) }
    ensures value { option_map (formed s.new) result ≡ put_line rest.now }
    ensures room { room s.new ≡ room s.old }
{
    let rest = name_word(&mut s.name, rest)?;
    let (expect, rest) = expect_word(rest)?;
    let rest = hex_word(&mut s.bytes, rest)?;
    rest.is_empty().then_some(Form::Put { expect })
}

fn fill_patch(s: &mut Scratch, rest: &[u8]) -> Option<Form>
    requires { Roomy s.old (length rest.now) }
    ensures value { option_map (formed s.new) result ≡ patch_line rest.now }
    ensures room { room s.new ≡ room s.old }
{
    let rest = name_word(&mut s.name, rest)?;
    let (at, rest) = next_number(rest, MOST_32)?;
    let (expect, rest) = expect_word(rest)?;
    let rest = hex_word(&mut s.bytes, rest)?;
    rest.is_empty().then_some(Form::Patch {
        at: at as u32,
        expect,
    })
}

fn fill_remove(s: &mut Scratch, rest: &[u8]) -> Option<Form>
    ensures value { option_map (formed s.new) result ≡ remove_line rest.now }
    ensures room { room s.new ≡ room s.old }
{
    let rest = name_word(&mut s.name, rest)?;
    let (expect, rest) = expect_word(rest)?;
    rest.is_empty().then_some(Form::Remove { expect })
}

fn fill_rename(s: &mut Scratch, rest: &[u8]) -> Option<Form>
    ensures value { option_map (formed s.new) result ≡ rename_line rest.now }
    ensures room { room s.new ≡ room s.old }
{
    let rest = name_word(&mut s.name, rest)?;
    let rest = name_word(&mut s.other, rest)?;
    rest.is_empty().then_some(Form::Rename)
}

fn fill_names(s: &mut Scratch, rest: &[u8]) -> Option<Form>
    ensures value { option_map (formed s.new) result ≡ names_line rest.now }
    ensures room { room s.new ≡ room s.old }
{
    let rest = name_word(&mut s.name, rest)?;
    let (most, rest) = next_number(rest, MOST_16)?;
    rest.is_empty().then_some(Form::Names { most: most as u16 })
}

// A second word tells whether `alone` is a name.
fn fill_take(s: &mut Scratch, rest: &[u8]) -> Option<Form>
    ensures value { option_map (formed s.new) result ≡ take_line rest.now }
    ensures room { room s.new ≡ room s.old }
{
    match next_word(rest)? {
        (_, []) => {
            name_word(&mut s.name, rest)?;
            Some(Form::Take { alone: false })
        }
        (b"alone", rest) => {
            let rest = name_word(&mut s.name, rest)?;
            rest.is_empty().then_some(Form::Take { alone: true })
        }
        _ => None,
    }
}

fn fill_let(s: &mut Scratch, rest: &[u8]) -> Option<Form>
    ensures value { option_map (formed s.new) result ≡ let_line rest.now }
    ensures room { room s.new ≡ room s.old }
{
    let (b"go", rest) = next_word(rest)? else {
        return None;
    };
    let rest = name_word(&mut s.name, rest)?;
    rest.is_empty().then_some(Form::LetGo)
}

// The form of a call; none if the line cannot be put into bytes.
pub(crate) fn fill_call(s: &mut Scratch, verb: Kind, rest: &[u8]) -> Option<Form>
    requires { Roomy s.old (length rest.now) }
    ensures value { option_map (formed s.new) result ≡ call_line verb rest.now }
    ensures room { room s.new ≡ room s.old }
{
    match verb {
        Kind::Read => fill_read(s, rest),
        Kind::Put => fill_put(s, rest),
        Kind::Patch => fill_patch(s, rest),
        Kind::Remove => fill_remove(s, rest),
        Kind::Rename => fill_rename(s, rest),
        Kind::Names => fill_names(s, rest),
        Kind::Take => fill_take(s, rest),
        Kind::LetGo => fill_let(s, rest),
    }
}
