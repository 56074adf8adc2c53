// Calls told apart: those that only read, and those that may change the table.
// (The codec's `Call` is not made of a `Query` and a `Change`: what a message carries is one of eight calls, by the number of its kind, and
// which of them only read is nothing to the codec. With `Call` alone, each of the two functions that take them would have to say what it
// does with the other's calls.)
use crate::tables::changes::Change;
use crate::tables::queries::Query;
use codec::call::Call;

#[derive(Clone, Copy)]
pub enum Kind<'a> {
    Query(Query<'a>),
    Change(Change<'a>),
}

// The same call, as a query or as a change.
impl<'a> From<Call<'a>> for Kind<'a> {
    ghost use Rattle.std.specs.Prelude.{◌≡◌};
    ghost use Rattle.codec.specs.Calls.{call_of};
    ghost use Rattle.table.specs.Tables.{kind_of};

    ghost from_gives = { λ call kind. kind_of kind ≡ call_of call };

    fn from(call: Call<'a>) -> Kind<'a> {
        match call {
            Call::Read { name, start, most } => Kind::Query(Query::Read { name, start, most }),
            Call::Names { after, most } => Kind::Query(Query::Names { after, most }),
            Call::Put {
                name,
                expect,
                bytes,
            } => Kind::Change(Change::Put {
                name,
                expect,
                bytes,
            }),
            Call::Patch {
                name,
                at,
                expect,
                bytes,
            } => Kind::Change(Change::Patch {
                name,
                at,
                expect,
                bytes,
            }),
            Call::Remove { name, expect } => Kind::Change(Change::Remove { name, expect }),
            Call::Rename { name, new } => Kind::Change(Change::Rename { name, new }),
            Call::Take { name, alone } => Kind::Change(Change::Take { name, alone }),
            Call::LetGo { name } => Kind::Change(Change::LetGo { name }),
        }
    }
}
