// The sum check, one byte wide.
ghost use Rattle.std.specs.Prelude.{◌≡◌};
ghost use Rattle.block_check.specs.Law.{Bytes};
ghost use Rattle.checks.specs.Sums.{sum_value};
ghost use Rattle.checks.specs.SumSteps.{sum_lawful};

use block_check::Check;

#[derive(Clone, Copy)]
pub struct SumCheck;

// Adds every byte modulo 256. A `for` loop, since the rules of the project ask for one here.
// The clause on the bytes is the trait's, handed on: a loop in the impl would be no plainer, as this counts in a `u8`.
fn sum_of(bytes: &[u8]) -> u8
    ensures answer { result ≡ sum_value bytes.now }
    ensures bytes { Bytes bytes.now }
{
    let mut total: u8 = 0;
    for b in bytes {
        total = total.wrapping_add(*b);
    }
    total
}

impl Check for SumCheck {
    ghost code = { record { width = 1; value = sum_value } };

    ghost lawful = { sum_lawful };

    fn width() -> usize {
        1
    }

    fn value(bytes: &[u8]) -> u16 {
        u16::from(sum_of(bytes))
    }
}
