// Examples of lines, read and printed.
#![tactic(auto)]

#[cfg(test)]
mod tests {
    use codec::answer::{Answer, Refusal};
    use codec::call::Call;
    use ids::{CallNumber, DeskId};
    use lines::event::{read_desk, read_house};
    use lines::scratch::Event;
    use lines::shape::Scratch;
    use printing::print::write_to;
    use printing::told::write_answer;
    use std::test::Fail;

    #[test]
    fn lines_that_are_none(rt: HostRuntime) -> Result<(), Fail> {
        let mut scratch = Scratch::new(rt.alloc(), 64)?;
        assert!(rt; read_house(&mut scratch, b"clock 07").is_err());
        assert!(rt; read_house(&mut scratch, b"clock  7").is_err());
        assert!(rt; read_house(&mut scratch, b"from 3 0A").is_err());
        assert!(rt; read_house(&mut scratch, b"7 take a").is_err());
        assert!(rt; read_desk(&mut scratch, b"7 take %61").is_ok());
        assert!(rt; read_desk(&mut scratch, b"light").is_err());
        Ok(())
    }

    // Whether the call is to remove this sheet.
    fn removes(call: Option<Call<'_>>, sheet: &[u8]) -> bool {
        matches!(call, Some(Call::Remove { name, .. }) if name == sheet)
    }

    #[test]
    fn a_call_is_read(rt: HostRuntime) -> Result<(), Fail> {
        let mut scratch = Scratch::new(rt.alloc(), 64)?;
        let Ok(shape) = read_desk(&mut scratch, b"18446744073709551615 remove a%20b 3") else {
            return Err(Fail::new("the line is one"));
        };
        let Event::Asked(number, call) = scratch.event(shape) else {
            return Err(Fail::new("it is a call"));
        };
        assert!(rt; number.0 == 18446744073709551615);
        assert!(rt; removes(call, b"a b"));
        Ok(())
    }

    #[test]
    fn lines_are_printed(rt: HostRuntime) -> Result<(), Fail> {
        let mut out = Vec::with_capacity(rt.alloc(), 512)?;
        assert!(rt; write_to(&mut out, DeskId(3), &[10, 255]).is_ok());
        assert!(rt; write_answer(&mut out, CallNumber(12), Answer::No(Refusal::Missing)).is_ok());
        assert!(rt;
            write_answer(
                &mut out,
                CallNumber(0),
                Answer::Names {
                    count: 2,
                    names: &[1, 97, 0],
                },
            )
            .is_ok()
        );
        assert!(rt; out.as_slice() == b"to 3 0aff\n12 no 2\n0 names 2 a %\n".as_slice());
        Ok(())
    }
}
