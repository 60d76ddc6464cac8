// Reading a block.
ghost use Rattle.std.specs.Prelude.{◌≡◌, ◌+◌, ◌<◌, true, length, drop, MatchOption};
ghost use Rattle.block.specs.Form.{in_range};
ghost use Rattle.block.specs.Reading.{heading_of, size_of, shown, read_block};

use crate::frame::Frame;
use crate::heading::Heading;
use crate::status::Status;
use block_check::Check;

// A header taken apart, and the bytes behind it.
#[derive(Clone, Copy)]
struct Parts<'a> {
    heading: Heading,
    size: usize,
    rest: &'a [u8],
    ghost fields: { in_range heading ≡ true },
}

fn take_apart(bytes: &[u8]) -> Option<Parts<'_>>
    ensures { MatchOption result (length bytes.now < 6) (λ p. (6 + length p.rest.now ≡ length bytes.now) × (p.heading ≡ heading_of bytes.now) × (p.size ≡ size_of bytes.now) × (p.rest.now ≡ drop 6 bytes.now)) }
{
    let &[
        first,
        number,
        exchange_high,
        exchange_low,
        size_high,
        size_low,
        ref rest @ ..,
    ] = bytes
    else {
        return None;
    };
    let heading = Heading {
        origin: first / 128,
        protocol: first / 16 % 8,
        kind: first % 16,
        number,
        exchange: u16::from_be_bytes([exchange_high, exchange_low]),
    };
    let size = usize::from(u16::from_be_bytes([size_high, size_low]));
    Some(Parts {
        heading,
        size,
        rest,
    })
}

// What a receiver makes of the bytes: the status that tells what is wrong with them, or the frame.
#[tactic(auto, unfolding(crate::specs::Reading::read_block))]
pub fn read<K: Check>(bytes: &[u8]) -> Result<Frame<'_>, Status>
    ensures { shown result ≡ read_block K.Check.code.width K.Check.code.value bytes.now }
{
    let w = K::width();
    let Some(
        Parts {
            heading,
            size,
            rest,
        },
    ) = take_apart(bytes)
    else {
        return Err(Status::UnderLength);
    };
    if rest.len() < w {
        return Err(Status::UnderLength);
    }
    if size > 512 {
        return Err(Status::OverLength);
    }
    if rest.len() > size + w {
        return Err(Status::OverLength);
    }
    if rest.len() < size + w {
        return Err(Status::UnderLength);
    }
    let value = K::value(&bytes[0..6 + size]).to_be_bytes();
    if rest[size..] != value[2 - w..] {
        return Err(Status::BadCheck);
    }
    Ok(Frame {
        heading,
        payload: &rest[0..size],
    })
}
