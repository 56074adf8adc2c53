// The calls that only read.
ghost use Rattle.std.specs.Prelude.{◌≡◌, ℕ, ◌<◌, ◌≤◌, true, ◌&&◌, IfOk, IfErr, OnErr, [], length, take, drop, nat_le, slice_index_or, vec_len};
ghost use Rattle.promise.specs.Bytes.{all_bytes};
ghost use Rattle.promise.specs.Sheets as t;
ghost use Rattle.table.specs.View.{Finding, StandsAt, below, blank_head};
ghost use Rattle.table.specs.Tables.{state_of, room_of, HasSheet, sheet_in, query_of, reply_of, Named};

use crate::bytes::{is_bound, is_name};
use crate::heads::Head;
use crate::lookup::Sheets;
use crate::tables::Table;
use crate::tables::listing::Listing;
use codec::answer::Refusal;
use ids::{DeskId, Edition};

#[derive(Clone, Copy)]
pub enum Query<'a> {
    Read {
        name: &'a [u8],
        start: u32,
        most: u32,
    },
    Names {
        after: &'a [u8],
        most: u16,
    },
}

#[derive(Clone, Copy)]
pub enum Reading<'a> {
    // a part of a sheet's memory
    Stretch {
        edition: Edition,
        whole: u32,
        bytes: &'a [u8],
    },
    Names(Listing<'a>),
}

// At most so many bytes from a place on.
fn part(bytes: &[u8], start: usize, most: usize) -> &[u8]
    ensures { result.now ≡ take most (drop start bytes.now) }
{
    let rest = bytes.get(start..).unwrap_or(&[]);
    rest.get(..most).unwrap_or(rest)
}

// Whether a call to read is in range.
fn may_read(name: &[u8], most: u32) -> bool
    ensures { result ≡ (t.name_ok name.now && nat_le most 1048576) }
{
    is_name(name) && most <= 1048576
}

// Whether a call for names is in range.
fn may_list(after: &[u8], most: u16) -> bool
    ensures { result ≡ (nat_le (length after.now) 255 && all_bytes after.now && nat_le most 1024) }
{
    is_bound(after) && most <= 1024
}

impl Table {
    // Where a name stands, or else where it would.
    pub(crate) fn look(&self, name: &[u8]) -> Result<usize, usize>
        ensures { Finding (state_of self.now).sheets name.now result }
    {
        let sheets = Sheets {
            mem: self.log.as_slice(),
            heads: self.heads.as_slice(),
        };
        sheets.seek(name)
    }

    // Where the sheet of a name stands, or that it is missing.
    pub(crate) fn find(&self, name: &[u8]) -> Result<usize, Refusal>
        ensures there { IfOk result (StandsAt (state_of self.now).sheets name.now) }
        ensures missing { IfErr result (λ refusal. refusal ≡ Refusal.Missing) }
        ensures none { OnErr result (t.find (t.is_sheet name.now) (state_of self.now).sheets ≡ []) }
    {
        self.look(name).or(Err(Refusal::Missing))
    }

    // The name at an index.
    pub(crate) fn name(&self, i: usize) -> Option<&[u8]>
        ensures { Named (state_of self.now) i result }
    {
        let head = self.heads.get(i)?;
        Some(head.name(self.log.as_slice()))
    }

    // The head at an index.
    // (That a sheet stands there is asked by each method that takes an index: a type that kept this would have to borrow the table, and
    // no method that changes the table could take it.)
    pub(crate) fn head(&self, i: usize) -> Head
        requires { HasSheet self.now i }
        ensures value { result ≡ slice_index_or self.now.heads.items i blank_head }
        ensures edition { result.edition.0 ≡ (sheet_in (state_of self.now) i).edition }
        ensures len { result.len ≡ length (sheet_in (state_of self.now) i).bytes }
        ensures width { result.width ≡ length (sheet_in (state_of self.now) i).name }
        ensures lies { below (vec_len self.now.log) result ≡ true }
    {
        self.heads[i]
    }

    // The bytes of the sheet at an index.
    fn bytes(&self, i: usize) -> &[u8]
        requires { HasSheet self.now i }
        ensures { result.now ≡ (sheet_in (state_of self.now) i).bytes }
    {
        self.head(i).bytes(self.log.as_slice())
    }

    // A part of a sheet's bytes.
    fn stretch(&self, name: &[u8], start: u32, most: u32) -> Result<Reading<'_>, Refusal>
        ensures { (d : ℕ) → reply_of result ≡ (t.does (room_of self.now) d (t.Read name.now start most) (state_of self.now)).reply }
    {
        if !may_read(name, most) {
            return Err(Refusal::OutOfRange);
        }
        let i = self.find(name)?;
        let head = self.head(i);
        let bytes = self.bytes(i);
        Ok(Reading::Stretch {
            edition: head.edition,
            whole: head.len as u32,
            bytes: part(bytes, start as usize, most as usize),
        })
    }

    // The index of the first name that comes after a given one.
    fn after(&self, name: &[u8]) -> usize
        ensures { t.keep (λ (x : t.Sheet). t.less name.now x.name) (state_of self.now).sheets ≡ drop result (state_of self.now).sheets }
    {
        match self.look(name) {
            Ok(i) => i + 1,
            Err(i) => i,
        }
    }

    // Names after a given one.
    fn names(&self, after: &[u8], most: u16) -> Result<Reading<'_>, Refusal>
        ensures { (d : ℕ) → reply_of result ≡ (t.does (room_of self.now) d (t.Names after.now most) (state_of self.now)).reply }
    {
        if !may_list(after, most) {
            return Err(Refusal::OutOfRange);
        }
        Ok(Reading::Names(Listing {
            table: self,
            next: self.after(after),
            left: most as usize,
        }))
    }

    // What a query of a desk is answered, or why it is turned away.
    pub fn read(&self, desk: DeskId, query: Query<'_>) -> Result<Reading<'_>, Refusal>
        ensures { reply_of result ≡ t.reply_to t.core (room_of self.now) desk.0 (query_of query.entry) (state_of self.now) }
    {
        match query {
            Query::Read { name, start, most } => self.stretch(name, start, most),
            Query::Names { after, most } => self.names(after, most),
        }
    }
}
