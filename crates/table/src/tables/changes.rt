// The calls that change the table.
ghost use Rattle.std.specs.Prelude.{◌≡◌, ◌+◌, ◌<◌, ◌≤◌, max, ◌&&◌, Ok, length};
ghost use Rattle.promise.specs.Sheets as t;
ghost use Rattle.codec.specs.Calls.{expect_of};
ghost use Rattle.table.specs.View.{Finding, StandsAt, laid, standing};
ghost use Rattle.table.specs.Tables.{state_of, room_of, HasPlace, outcome_of, change_of, Answers, sheet_in, Verdict, Admits, FitsSheet, Becomes, after_put, after_patch};

use crate::bytes::{is_content, is_name};
use crate::tables::Table;
use codec::answer::{Changed, Outcome, Refusal};
use codec::call::Expect;
use ids::{DeskId, Edition};

#[derive(Clone, Copy)]
pub enum Change<'a> {
    Put {
        name: &'a [u8],
        expect: Expect,
        bytes: &'a [u8],
    },
    Patch {
        name: &'a [u8],
        at: u32,
        expect: Expect,
        bytes: &'a [u8],
    },
    Remove {
        name: &'a [u8],
        expect: Expect,
    },
    Rename {
        name: &'a [u8],
        new: &'a [u8],
    },
    Take {
        name: &'a [u8],
        alone: bool,
    },
    LetGo {
        name: &'a [u8],
    },
}

// Whether a sheet has the edition that is expected.
fn as_expected(expect: Expect, edition: Edition) -> bool
    ensures { result ≡ t.as_expected (expect_of expect) edition.0 }
{
    match expect {
        Expect::Any => true,
        Expect::Just(e) => e == edition,
    }
}

// Whether a put or patch is in range.
fn may_put(name: &[u8], bytes: &[u8]) -> bool
    ensures { result ≡ (t.name_ok name.now && t.bytes_ok bytes.now) }
{
    is_name(name) && is_content(bytes)
}

impl Table {
    // The edition of what stands at a place, 0 for nothing.
    // (That it is a place of this table is asked by each method that takes one: a type that kept this would have to borrow the table, and
    // no method that changes the table could take it.)
    fn edition_at(&self, place: Result<usize, usize>) -> Edition
        requires { HasPlace self.now place }
        ensures { result.0 ≡ t.edition_of (standing (state_of self.now).sheets place) }
    {
        match place {
            Ok(i) => self.head(i).edition,
            Err(_) => Edition(0),
        }
    }

    // What all sheets weigh once one of so many bytes stands at a place.
    // (That `len` is small stands in several contracts: a type for it would be taken apart again at each sum.)
    pub(crate) fn weigh(&self, place: Result<usize, usize>, len: usize) -> usize
        requires within { HasPlace self.now place }
        requires small { len ≤ 1048576 }
        ensures { (x : t.Sheet) → length x.bytes ≡ len → result ≡ t.weight (laid (state_of self.now).sheets place x) }
    {
        match place {
            Ok(i) => self.load - self.head(i).len + len,
            Err(_) => self.load + 512 + len,
        }
    }

    // Whether a sheet can be changed to so many bytes, or why that is turned away.
    fn admit(
        &self,
        name: &[u8],
        place: Result<usize, usize>,
        expect: Expect,
        len: usize,
    ) -> Result<(), Refusal>
        requires spotted { Finding (state_of self.now).sheets name.now place }
        requires small { len ≤ 1048576 }
        ensures { Verdict (room_of self.now) name.now (expect_of expect) len (state_of self.now) result }
    {
        if !as_expected(expect, self.edition_at(place)) {
            return Err(Refusal::OtherEdition);
        }
        if self.changes >= 4611686018427387904 {
            return Err(Refusal::UsedUp);
        }
        if self.weigh(place, len) > self.room {
            return Err(Refusal::NoRoom);
        }
        Ok(())
    }

    // All bytes of a sheet, in its own piece if they fit, else behind all others.
    // (That the change is admitted is asked here and in what is called: a proof of it that `admit` handed on would have to borrow the table,
    // which is changed before all is written.)
    fn store(&mut self, name: &[u8], place: Result<usize, usize>, bytes: &[u8])
        requires spotted { Finding (state_of self.old).sheets name.now place }
        requires fits { FitsSheet name.now bytes.now }
        requires admitted { Admits (room_of self.old) (state_of self.old) (after_put name.now bytes.now (state_of self.old)).sheets }
        ensures { Becomes self.old self.new (after_put name.now bytes.now (state_of self.old)) }
    {
        match place {
            Ok(i) if bytes.len() <= self.head(i).size => {
                self.fill(i, 0, bytes, bytes.len());
            }
            _ => {
                self.make_way(name.len() + bytes.len());
                self.append(place, name, bytes);
            }
        }
    }

    // Bytes written over a part of a sheet, or on from its end.
    fn amend(&mut self, name: &[u8], i: usize, at: usize, bytes: &[u8], len: usize)
        requires spotted { StandsAt (state_of self.old).sheets name.now i }
        requires begun { at ≤ length (sheet_in (state_of self.old) i).bytes }
        requires whole { len ≡ max (length (sheet_in (state_of self.old) i).bytes) (at + length bytes.now) }
        requires small { len ≤ 1048576 }
        requires admitted { Admits (room_of self.old) (state_of self.old) (after_patch name.now i at bytes.now (state_of self.old)).sheets }
        ensures { Becomes self.old self.new (after_patch name.now i at bytes.now (state_of self.old)) }
    {
        self.make_fit(i, len);
        self.fill(i, at, bytes, len);
    }

    fn put(&mut self, name: &[u8], expect: Expect, bytes: &[u8]) -> Outcome
        ensures { Answers self.old self.new result (λ d. t.does (room_of self.old) d (t.Put name.now bytes.now (expect_of expect)) (state_of self.old)) }
    {
        if !may_put(name, bytes) {
            return Err(Refusal::OutOfRange);
        }
        let place = self.look(name);
        self.admit(name, place, expect, bytes.len())?;
        self.store(name, place, bytes);
        Ok(Changed::Edition(Edition(self.changes)))
    }

    fn patch(&mut self, name: &[u8], at: usize, expect: Expect, bytes: &[u8]) -> Outcome
        requires { at < 4294967296 }
        ensures { Answers self.old self.new result (λ d. t.does (room_of self.old) d (t.Patch name.now at bytes.now (expect_of expect)) (state_of self.old)) }
    {
        if !may_put(name, bytes) {
            return Err(Refusal::OutOfRange);
        }
        let i = self.find(name)?;
        let old = self.head(i).len;
        let end = at + bytes.len();
        if at > old || end > 1048576 {
            return Err(Refusal::OutOfRange);
        }
        let len = old.max(end);
        self.admit(name, Ok(i), expect, len)?;
        self.amend(name, i, at, bytes, len);
        Ok(Changed::Edition(Edition(self.changes)))
    }

    fn remove(&mut self, name: &[u8], expect: Expect) -> Outcome
        ensures { Answers self.old self.new result (λ d. t.does (room_of self.old) d (t.Remove name.now (expect_of expect)) (state_of self.old)) }
    {
        if !is_name(name) {
            return Err(Refusal::OutOfRange);
        }
        let i = self.find(name)?;
        if !as_expected(expect, self.head(i).edition) {
            return Err(Refusal::OtherEdition);
        }
        self.forget(i);
        Ok(Changed::Yes)
    }

    // What a change by a desk is answered and leaves.
    pub fn change(&mut self, desk: DeskId, change: Change<'_>) -> Outcome
        ensures answer { outcome_of result ≡ t.reply_to t.core (room_of self.old) desk.0 (change_of change.entry) (state_of self.old) }
        ensures left { Becomes self.old self.new (t.left_by t.core (room_of self.old) desk.0 (change_of change.entry) (state_of self.old)) }
    {
        match change {
            Change::Put {
                name,
                expect,
                bytes,
            } => self.put(name, expect, bytes),
            Change::Patch {
                name,
                at,
                expect,
                bytes,
            } => self.patch(name, at as usize, expect, bytes),
            Change::Remove { name, expect } => self.remove(name, expect),
            Change::Rename { .. } | Change::Take { .. } | Change::LetGo { .. } => {
                Err(Refusal::NotBuilt)
            }
        }
    }
}
