// The wire form of blocks: 02h, the bytes with 02h, 03h and 1Bh escaped, 03h.
#![tactic(auto)]

pub mod read;
pub mod scan;
pub mod write;

ghost use Rattle.wire.specs.Theorems.{ReadBack, FramedIn};

// Reading what was written gives the block and what follows it, and a block that was found stands in the input as
// its frame.
#[tactic(auto, using(crate::proofs::Rereading::read_back, crate::proofs::Standing::framed_in))]
pub fn reading_undoes_writing()
    ensures read_back { ReadBack }
    ensures framed_in { FramedIn }
{}

#[cfg(test)]
mod tests {
    use super::read::read;
    use super::write::{measure, write};
    use refusal::Refusal;
    use std::test::Fail;

    #[test]
    fn escapes_and_keeps_what_lies_behind(rt: HostRuntime) -> Result<(), Fail> {
        let mut out = [0xee; 1042];
        assert_eq!(rt; measure(&[0x1b, 0x00])?, 5);
        assert_eq!(rt; write(&[0x1b, 0x00], &mut out)?, 5);
        assert!(rt; out[0..6] == [0x02, 0x1b, 0x9b, 0x00, 0x03, 0xee]);
        Ok(())
    }

    #[test]
    fn starts_anew_at_a_second_start(rt: HostRuntime) -> Result<(), Fail> {
        let mut out = [0xee; 520];
        let (n, rest) = read(&[0x02, 0x41, 0x02, 0x42, 0x03], &mut out)?;
        assert_eq!(rt; n, 1);
        assert_eq!(rt; rest.len(), 0);
        assert!(rt; out[0..2] == [0x42, 0xee]);
        Ok(())
    }

    #[test]
    fn skips_a_frame_with_a_bad_escape(rt: HostRuntime) -> Result<(), Fail> {
        let mut out = [0xee; 520];
        let (n, rest) = read(
            &[0x02, 0x1b, 0x41, 0x03, 0x02, 0x1b, 0x83, 0x03, 0x55],
            &mut out,
        )?;
        assert_eq!(rt; n, 1);
        assert!(rt; rest == [0x55].as_slice());
        assert!(rt; out[0..2] == [0x03, 0xee]);
        Ok(())
    }

    #[test]
    fn refuses_a_block_of_0_or_521_bytes(rt: HostRuntime) {
        let mut out = [0xee; 1042];
        assert_eq!(rt; measure(&[]).err().map(Refusal::number), Some(5));
        assert_eq!(rt; measure(&[0x41; 521]).err().map(Refusal::number), Some(5));
        assert_eq!(rt;
            write(&[0x41; 521], &mut out).err().map(Refusal::number),
            Some(5)
        );
        assert_eq!(rt;
            write(&[0x41], &mut out[0..1041]).err().map(Refusal::number),
            Some(1)
        );
        assert!(rt; out == [0xee; 1042]);
    }

    #[test]
    fn skips_a_frame_of_521_bytes(rt: HostRuntime) {
        let mut out = [0xee; 520];
        let mut wire = [0x41; 523];
        wire[0] = 0x02;
        wire[522] = 0x03;
        assert_eq!(rt; read(&wire, &mut out).err().map(Refusal::number), Some(6));
        assert_eq!(rt;
            read(&wire, &mut out[0..519]).err().map(Refusal::number),
            Some(1)
        );
        assert!(rt; out == [0xee; 520]);
    }
}
