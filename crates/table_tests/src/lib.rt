// Tests of the table, apart from it, since tests prove their whole crate again.
#![tactic(auto)]

#[cfg(test)]
mod tests {
    use codec::answer::Refusal;
    use codec::call::Expect;
    use ids::{DeskId, Edition};
    use std::test::Fail;
    use table::{Change, Changed, Outcome, Query, Reading, Table};

    fn put<'x>(
        t: &mut Table,
        desk: u8,
        name: &'x [u8],
        expect: Expect,
        bytes: &'x [u8],
    ) -> Outcome {
        t.change(
            DeskId(desk),
            Change::Put {
                name,
                expect,
                bytes,
            },
        )
    }

    fn patch<'x>(t: &mut Table, desk: u8, name: &'x [u8], at: u32, bytes: &'x [u8]) -> Outcome {
        t.change(
            DeskId(desk),
            Change::Patch {
                name,
                at,
                expect: Expect::Any,
                bytes,
            },
        )
    }

    fn take(t: &mut Table, desk: u8, name: &[u8]) -> Outcome {
        t.change(DeskId(desk), Change::Take { name, alone: false })
    }

    fn edition(n: u64) -> Outcome {
        Ok(Changed::Edition(Edition(n)))
    }

    // Whether a sheet is read with this edition, this whole length and these bytes.
    fn reads(t: &Table, name: &[u8], edition: u64, whole: u32, bytes: &[u8]) -> bool {
        let query = Query::Read {
            name,
            start: 0,
            most: 1048576,
        };
        match t.read(DeskId(1), query) {
            Ok(
                Reading::Stretch {
                    edition: e,
                    whole: n,
                    bytes: found,
                },
            ) => e == Edition(edition) && n == whole && found == bytes,
            _ => false,
        }
    }

    #[test]
    fn worked_cases(rt: HostRuntime) -> Result<(), Fail> {
        let mut t = Table::begin(rt.alloc(), 65536)?;
        let new = Expect::Just(Edition(0));
        assert!(rt; put(&mut t, 1, b"a", new, b"abc") == edition(1));
        assert!(rt; patch(&mut t, 2, b"a", 3, b"de") == edition(2));
        assert!(rt; reads(&t, b"a", 2, 5, b"abcde"));
        assert!(rt; take(&mut t, 1, b"a") == Err(Refusal::NotBuilt));
        assert!(rt; patch(&mut t, 1, b"a", 6, b"f") == Err(Refusal::OutOfRange));
        assert!(rt; put(&mut t, 1, b"k", new, b"1") == edition(3));
        assert!(rt; put(&mut t, 2, b"k", new, b"2") == Err(Refusal::OtherEdition));
        assert!(rt; put(&mut t, 2, b"", Expect::Any, b"2") == Err(Refusal::OutOfRange));
        Ok(())
    }

    // Fills 64 KiB to the room, shrinks one sheet and grows another to the very last byte.
    #[test]
    fn full(rt: HostRuntime) -> Result<(), Fail> {
        let mut t = Table::begin(rt.alloc(), 65536)?;
        let bytes = [7u8; 8192];
        for i in 0..8u8 {
            assert!(rt;
                put(&mut t, 1, &[i], Expect::Any, &bytes[..3584]) == edition(1 + u64::from(i))
            );
        }
        let no_room = Err(Refusal::NoRoom);
        assert!(rt; put(&mut t, 1, b"x", Expect::Any, b"") == no_room);
        assert!(rt; put(&mut t, 1, &[3], Expect::Any, &bytes[..2584]) == edition(9));
        assert!(rt; put(&mut t, 1, &[5], Expect::Any, &bytes[..4585]) == no_room);
        assert!(rt; patch(&mut t, 1, &[5], 3584, &bytes[..1001]) == no_room);
        assert!(rt; patch(&mut t, 1, &[5], 3584, &bytes[..1000]) == edition(10));
        assert!(rt; reads(&t, &[5], 10, 4584, &bytes[..4584]));
        assert!(rt; reads(&t, &[3], 9, 2584, &bytes[..2584]));
        assert!(rt; reads(&t, &[7], 8, 3584, &bytes[..3584]));
        Ok(())
    }
}
