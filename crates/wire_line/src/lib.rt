// A line that holds its blocks in their wire form, one frame behind the other.
#![tactic(auto)]

pub mod calls;
mod frames;
pub mod held;

pub use held::WireLine;

#[cfg(test)]
mod tests {
    use super::*;
    use line::Line;
    use refusal::{Layer, Reason};
    use std::test::Fail;

    fn make(rt: HostRuntime) -> Result<WireLine, Fail> {
        let memory = vec![in rt.alloc(); 0; 16672]?;
        WireLine::new(memory).map_err(|declined| Fail::new(declined.refusal))
    }

    // The longest there is on the wire, since each byte is escaped; byte `i` tells it from others.
    fn worst(i: usize) -> [u8; 520] {
        let mut block = [0x02; 520];
        block[i % 520] = 0x1b;
        block
    }

    #[test]
    fn sixteen_of_the_longest_wait_in_order(rt: HostRuntime) -> Result<(), Fail> {
        let mut line = make(rt)?;
        for i in 0..16 {
            assert_eq!(rt; line.put(&worst(i)), Ok(()));
        }
        assert_eq!(rt; line.put(&[1]), Err(Layer::Line.refuses(Reason::LineFull)));
        for i in 0..16 {
            let mut buf = [0; 520];
            assert_eq!(rt; line.take(&mut buf), Ok(520));
            assert!(rt; buf == worst(i));
        }
        assert_eq!(rt;
            line.take(&mut [0; 520]),
            Err(Layer::Line.refuses(Reason::NothingWaits))
        );
        Ok(())
    }

    // This test and the next stand in the row line's tests too: one text would be a library function that can stop the
    // program, and a rule of the project allows none.
    #[test]
    fn what_lies_behind_is_kept(rt: HostRuntime) -> Result<(), Fail> {
        let mut line = make(rt)?;
        let mut buf = [9; 521];
        assert_eq!(rt; line.put(&[1, 2, 3]), Ok(()));
        assert_eq!(rt;
            line.take(&mut buf[0..519]),
            Err(Layer::Line.refuses(Reason::TooShort))
        );
        assert_eq!(rt; line.count(), 1);
        assert_eq!(rt; line.take(&mut buf), Ok(3));
        assert_eq!(rt; line.count(), 0);
        assert!(rt; buf[0..4] == [1, 2, 3, 9] && buf[520] == 9);
        Ok(())
    }

    #[test]
    fn sizes_that_are_refused(rt: HostRuntime) -> Result<(), Fail> {
        let mut line = make(rt)?;
        assert_eq!(rt;
            line.put(&[]),
            Err(Layer::Line.refuses(Reason::BlockLength))
        );
        assert_eq!(rt;
            line.put(&[0; 521]),
            Err(Layer::Line.refuses(Reason::BlockLength))
        );
        assert_eq!(rt; line.count(), 0);
        let memory = vec![in rt.alloc(); 7; 16671]?;
        match WireLine::new(memory) {
            Ok(_) => Err(Fail::new("made of too little memory")),
            Err(declined) => {
                assert!(rt;
                    declined.refusal == Layer::Line.refuses(Reason::TooShort)
                        && declined.given.len() == 16671
                );
                Ok(())
            },
        }
    }
}
