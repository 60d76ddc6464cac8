// The long check, two bytes wide: a CRC with the polynomial 1021h.
ghost use Rattle.std.specs.Prelude.{◌≡◌};
ghost use Rattle.block_check.specs.Law.{Bytes};
ghost use Rattle.checks.specs.Crc.{crc, stepped, shifted};
ghost use Rattle.checks.specs.Steps.{crc_lawful};

use block_check::Check;

#[derive(Clone, Copy)]
pub struct LongCheck;

// One bit, from the top.
fn shift(s: u16) -> u16
    ensures { result ≡ shifted s }
{
    if s & 0x8000 != 0 {
        (s << 1) ^ 0x1021
    } else {
        s << 1
    }
}

// One byte. The compiler makes a table of this loop, so it is as quick as one.
#[tactic(auto, unfolding(crate::specs::Crc::bits))]
fn step(state: u16, b: u8) -> u16
    ensures { result ≡ stepped state b }
{
    let mut s = state ^ (u16::from(b) << 8);
    for _i in 0..8u32 {
        s = shift(s);
    }
    s
}

// The clause on the bytes is the trait's, handed on, as the sum check hands it on.
fn crc_of(bytes: &[u8]) -> u16
    ensures answer { result ≡ crc bytes.now }
    ensures bytes { Bytes bytes.now }
{
    bytes.iter().fold(0xffff, |state, b| step(state, *b))
}

impl Check for LongCheck {
    ghost code = { record { width = 2; value = crc } };

    ghost lawful = { crc_lawful };

    fn width() -> usize {
        2
    }

    fn value(bytes: &[u8]) -> u16 {
        crc_of(bytes)
    }
}
