// The checks that a block can carry: the sum check and the long check.
#![tactic(auto)]

pub mod long;
pub mod sum;

#[cfg(test)]
mod tests {
    use crate::long::LongCheck;
    use crate::sum::SumCheck;
    use block_check::Check;

    #[test]
    fn sums(rt: HostRuntime) {
        assert_eq!(rt; SumCheck::value(b""), 0);
        assert_eq!(rt; SumCheck::value(b"123456789"), 0xdd);
        assert_eq!(rt; SumCheck::value(&[0xff; 256]), 0);
    }

    // Published values, and of 00h and FFh those that another program gave.
    #[test]
    fn crcs(rt: HostRuntime) {
        assert_eq!(rt; LongCheck::value(b""), 0xffff);
        assert_eq!(rt; LongCheck::value(&[0x00]), 0xe1f0);
        assert_eq!(rt; LongCheck::value(b"A"), 0xb915);
        assert_eq!(rt; LongCheck::value(&[0xff]), 0xff00);
        assert_eq!(rt; LongCheck::value(b"123456789"), 0x29b1);
        assert_eq!(rt; LongCheck::value(&[0x41; 256]), 0xea0b);
    }

    // Every byte, twice over and more; another program gave the value.
    #[test]
    fn crc_of_a_long_block(rt: HostRuntime) {
        let mut block = [0; 518];
        for (i, b) in block.iter_mut().enumerate() {
            *b = (i % 256) as u8;
        }
        assert_eq!(rt; LongCheck::value(&block), 0x8bd9);
    }
}
