// A script: a list of calls with the limits of both ends, read from bytes.
#![tactic(auto)]

mod letter;
pub mod pattern;
pub mod read;
mod shape;

#[cfg(test)]
mod tests {
    use crate::pattern::pattern;
    use crate::read::read;
    use refusal::Failure;
    use rules::answer::Tag;
    use rules::call::{Call, Change, Part, Step};
    use rules::seat::Side;
    use std::alloc::Global;
    use std::test::Fail;

    // The number of the refusal, by which operators know it, or 0.
    fn refusal(heap: Global, script: &[u8]) -> Result<u8, Fail> {
        match read(heap, script) {
            Ok(_) => Ok(0),
            Err(Failure::Refused(why)) => Ok(why.number()),
            Err(Failure::OutOfMemory(e)) => Err(Fail::from(e)),
        }
    }

    #[test]
    fn reads_limits_letters_and_arguments(rt: HostRuntime) -> Result<(), Fail> {
        let bytes = b"\x00\x02\x02\x00\x01\x0esX\x00\x07\x00\x05\x00\x03\xff\x09";
        let Ok(script) = read(rt.alloc(), bytes) else {
            return Err(Fail::new("not read"));
        };
        assert_eq!(rt;
            (script.controller.offset, script.controller.payload),
            (8, 512)
        );
        assert_eq!(rt; (script.sled.offset, script.sled.payload), (4, 270));
        assert!(rt; script.calls.len() == 2);
        assert!(rt;
            matches!(
                script.calls[0],
                Call {
                    side: Side::Sled,
                    step: Step::Send(
                        Tag {
                            origin: 1,
                            exchange: 7,
                            ..
                        },
                        Part { place: 0, size: 5 }
                    ),
                }
            )
        );
        assert!(rt;
            matches!(
                script.calls[1],
                Call {
                    side: Side::Controller,
                    step: Step::Spoil(Change {
                        place: 3,
                        addend: 9
                    }),
                }
            )
        );
        Ok(())
    }

    #[test]
    fn refuses_by_number(rt: HostRuntime) -> Result<(), Fail> {
        assert_eq!(rt; refusal(rt.alloc(), b"\x00\x00\x02\x00\x02\x00")?, 0);
        assert_eq!(rt; refusal(rt.alloc(), b"\x00\x00\x02\x00\x02")?, 7);
        assert_eq!(rt; refusal(rt.alloc(), b"\x00\x00\x02\x00\x02\x00\x00")?, 7);
        assert_eq!(rt;
            refusal(rt.alloc(), b"\x00\x01\x02\x00\x02\x00Q\x00\x00\x00\x00")?,
            8
        );
        assert_eq!(rt; refusal(rt.alloc(), b"\x00\x00\x01\x0d\x02\x00")?, 2);
        assert_eq!(rt; refusal(rt.alloc(), b"\x00\x00\x02\x00\x02\x01")?, 2);
        Ok(())
    }

    #[test]
    fn tests_shape_then_letters_then_limits(rt: HostRuntime) -> Result<(), Fail> {
        assert_eq!(rt;
            refusal(rt.alloc(), b"\x00\x01\x00\x00\x00\x00Q\x00\x00\x00")?,
            7
        );
        assert_eq!(rt;
            refusal(rt.alloc(), b"\x00\x01\x00\x00\x00\x00Q\x00\x00\x00\x00")?,
            8
        );
        assert_eq!(rt;
            refusal(rt.alloc(), b"\x00\x01\x00\x00\x00\x00P\x00\x00\x00\x00")?,
            2
        );
        Ok(())
    }

    #[test]
    fn reads_ten_thousand_steps_and_no_more(rt: HostRuntime) -> Result<(), Fail> {
        let mut bytes = b"\x27\x10\x02\x00\x02\x00".to_vec(rt.alloc())?;
        bytes.resize(50_006, b'P')?;
        assert_eq!(rt; refusal(rt.alloc(), bytes.as_slice())?, 0);
        let mut more = b"\x27\x11\x02\x00\x02\x00".to_vec(rt.alloc())?;
        more.resize(50_011, b'P')?;
        assert_eq!(rt; refusal(rt.alloc(), more.as_slice())?, 7);
        Ok(())
    }

    #[test]
    fn pattern_goes_round(rt: HostRuntime) -> Result<(), Fail> {
        let bytes = pattern(rt.alloc())?;
        assert!(rt; bytes.len() == 65_535);
        assert_eq!(rt; (bytes[0], bytes[255]), (0, 255));
        assert_eq!(rt; (bytes[256], bytes[65_534]), (0, 254));
        Ok(())
    }
}
