// Calls, answers and frames worked out by hand from the layouts, byte for byte. Only tests live here.
#![tactic(auto)]

#[cfg(test)]
mod tests {
    use codec::answer::{Answer, Refusal};
    use codec::call::{Call, Expect};
    use codec::{
        DoesNotFit, read_answer, read_call, read_frame, write_answer, write_call, write_frame,
    };
    use ids::{CallNumber, Edition};
    use std::alloc::{AllocError, Global};
    use std::test::Fail;

    // Whether just these bytes are written, where there is just room for them.
    fn writes<F>(heap: Global, write: F, bytes: &[u8]) -> Result<bool, AllocError>
    where
        F: FnOnce(&mut Vec<u8>) -> Result<(), DoesNotFit>,
        requires { (v : _) → F.pre write v }
    {
        let mut v = Vec::with_capacity(heap, bytes.len())?;
        let _ = write(&mut v);
        Ok(v.as_slice() == bytes)
    }

    // Whether no part of these bytes that is cut short is a call.
    fn whole_only(bytes: &[u8]) -> bool {
        (0..bytes.len()).all(|n| read_call(&bytes[..n]).is_none())
    }

    // Whether each call is written as the bytes beside it, and these are read as just that call.
    fn stand_for(heap: Global, calls: &[(Call<'_>, &[u8])]) -> Result<bool, AllocError> {
        for (call, bytes) in calls {
            if !writes(heap, |v| write_call(v, *call), bytes)? || read_call(bytes) != Some(*call) {
                return Ok(false);
            }
        }
        Ok(true)
    }

    #[test]
    fn calls(rt: HostRuntime) -> Result<(), Fail> {
        let name = b"ab";
        let start = 1;
        let most = 0xffff_ffff;
        let new = b"";
        let after = b"";
        let calls: [(Call<'_>, &[u8]); 6] = [
            (
                Call::Read { name, start, most },
                b"\x01\x02ab\x00\x00\x00\x01\xff\xff\xff\xff",
            ),
            (Call::Rename { name, new }, b"\x05\x02ab\x00"),
            (Call::Names { after, most: 65535 }, b"\x06\x00\xff\xff"),
            (Call::Take { name, alone: true }, b"\x07\x02ab\x01"),
            (Call::Take { name, alone: false }, b"\x07\x02ab\x00"),
            (Call::LetGo { name }, b"\x08\x02ab"),
        ];
        assert!(rt; stand_for(rt.alloc(), &calls)?);
        Ok(())
    }

    #[test]
    fn changes(rt: HostRuntime) -> Result<(), Fail> {
        let name = b"ab";
        let calls: [(Call<'_>, &[u8]); 4] = [
            (
                Call::Put {
                    name,
                    expect: Expect::Any,
                    bytes: b"xyz",
                },
                b"\x02\x02ab\x00\x00\x00\x00\x03xyz",
            ),
            (
                Call::Put {
                    name,
                    expect: Expect::Just(Edition(0)),
                    bytes: b"",
                },
                b"\x02\x02ab\x01\x00\x00\x00\x00\x00\x00\x00\x00\x00\x00\x00\x00",
            ),
            (
                Call::Patch {
                    name,
                    at: 258,
                    expect: Expect::Just(Edition(0x4000_0000_0000_0000)),
                    bytes: b"x",
                },
                b"\x03\x02ab\x00\x00\x01\x02\x01\x40\x00\x00\x00\x00\x00\x00\x00\x00\x00\x00\x01x",
            ),
            (
                Call::Remove {
                    name,
                    expect: Expect::Any,
                },
                b"\x04\x02ab\x00",
            ),
        ];
        assert!(rt; stand_for(rt.alloc(), &calls)?);
        Ok(())
    }

    #[test]
    fn no_calls(rt: HostRuntime) {
        assert!(rt;
            whole_only(
                b"\x03\x02ab\x00\x00\x01\x02\x01\x40\x00\x00\x00\x00\x00\x00\x00\x00\x00\x00\x01x",
            )
        );
        assert!(rt; whole_only(b"\x01\x02ab\x00\x00\x00\x01\xff\xff\xff\xff"));
        assert!(rt; read_call(b"\x00\x02ab").is_none());
        assert!(rt; read_call(b"\x09\x02ab").is_none());
        assert!(rt; read_call(b"\x08\x02abc").is_none());
        assert!(rt; read_call(b"\x07\x02ab\x02").is_none());
        assert!(rt; read_call(b"\x04\x02ab\x02").is_none());
        assert!(rt; read_call(b"\x02\x02ab\x00\x00\x00\x00\x04xyz").is_none());
        assert!(rt; read_call(b"\x02\x02ab\x00\x00\x00\x00\x02xyz").is_none());
    }

    #[test]
    fn long_names(rt: HostRuntime) -> Result<(), Fail> {
        let heap = rt.alloc();
        let long = [b'n'; 255];
        let longer = [b'n'; 256];
        let mut v = Vec::with_capacity(heap, 1000)?;
        assert!(rt; write_call(&mut v, Call::LetGo { name: &longer }).is_err());
        assert!(rt; v.len() == 0);
        assert!(rt; write_call(&mut v, Call::LetGo { name: &long }).is_ok());
        assert!(rt; v.len() == 257);
        assert!(rt; v[0] == 8);
        assert!(rt; v[1] == 255);
        assert!(rt; read_call(v.as_slice()).is_some());
        Ok(())
    }

    #[test]
    fn answers(rt: HostRuntime) -> Result<(), Fail> {
        let answers: [(Answer<'_>, &[u8]); 7] = [
            (Answer::No(Refusal::EightWait), b"\x00\x0b"),
            (Answer::No(Refusal::Other(200)), b"\x00\xc8"),
            (Answer::Yes, b"\x01"),
            (
                Answer::Edition(Edition(0x4000_0000_0000_0000)),
                b"\x02\x40\x00\x00\x00\x00\x00\x00\x00",
            ),
            (
                Answer::Read {
                    edition: Edition(3),
                    whole: 7,
                    bytes: b"xy",
                },
                b"\x03\x00\x00\x00\x00\x00\x00\x00\x03\x00\x00\x00\x07\x00\x00\x00\x02xy",
            ),
            (
                Answer::Names {
                    count: 0,
                    names: b"",
                },
                b"\x04\x00\x00",
            ),
            (
                Answer::Names {
                    count: 2,
                    names: b"\x01a\x02bc",
                },
                b"\x04\x00\x02\x01a\x02bc",
            ),
        ];
        for (answer, bytes) in answers {
            assert!(rt; writes(rt.alloc(), |v| write_answer(v, answer), bytes)?);
            assert!(rt; read_answer(bytes) == Some(answer));
        }
        assert!(rt; read_answer(b"\x04\x00\x02\x01a").is_none());
        assert!(rt; read_answer(b"\x01\x00").is_none());
        assert!(rt; read_answer(b"\x05").is_none());
        Ok(())
    }

    #[test]
    fn frames(rt: HostRuntime) -> Result<(), Fail> {
        assert!(rt;
            writes(
                rt.alloc(),
                |v| write_frame(v, CallNumber(258), b"x"),
                b"\x00\x00\x00\x09\x00\x00\x00\x00\x00\x00\x01\x02x",
            )?
        );
        assert!(rt; read_frame(b"\x00\x00\x00\x09\x00\x00\x00\x00\x00\x00\x01\x02xy").is_some());
        assert!(rt; read_frame(b"\x00\x00\x00\x09\x00\x00\x00\x00\x00\x00\x01\x02").is_none());
        assert!(rt; read_frame(b"\x00\x00\x00\x07\x00\x00\x00\x00\x00\x00\x01").is_none());
        Ok(())
    }
}
