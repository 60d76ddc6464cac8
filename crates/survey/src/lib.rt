// A survey of a line capture: the blocks in it, what they say, and what stands between them.
#![tactic(auto)]

pub mod item;
pub mod pass;
pub mod seen;
pub mod tally;
pub mod text;

#[cfg(test)]
mod tests {
    use crate::pass::survey;
    use crate::tally::Tally;
    use checks::sum::SumCheck;
    use std::test::Fail;

    // Noise, an acknowledgement, a frame with a bad escape and one with no end.
    #[test]
    fn counts_a_block_and_what_is_around_it(rt: HostRuntime) -> Result<(), Fail> {
        let capture = b"AB\x02\x00\x05\x00\x07\x00\x01\x00\x0d\x03\x02\x1bA\x03\x02\x00\x05";
        let items = survey::<SumCheck>(rt.alloc(), capture)?;
        assert_eq!(rt; items.len(), 3);
        let tally = Tally::of(items.as_slice());
        assert_eq!(rt; (tally.blocks, tally.well.service), (1, 1));
        assert_eq!(rt; (tally.skipped, tally.faulty), (9, 2));
        Ok(())
    }
}
