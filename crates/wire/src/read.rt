// The reader of wire bytes.
ghost use Rattle.std.specs.Prelude.{◌≡◌};
ghost use Rattle.wire.specs.Calls.{shown, read_answer, read_buffer};

use crate::scan::{scan, skip};
use crate::write::LONGEST_BLOCK;
use refusal::{Layer, Reason, Refusal};

// Writes the first block of the input to the front of `out`, and answers its length and the rest of the input.
// A length beside the buffer: the caller lends the memory, here and in every layer.
pub fn read<'a>(input: &'a [u8], out: &mut [u8]) -> Result<(usize, &'a [u8]), Refusal>
    ensures answer { shown result ≡ read_answer input.now out.old }
    ensures after { out.new ≡ read_buffer input.now out.old }
{
    if out.len() < LONGEST_BLOCK {
        return Err(Layer::Wire.refuses(Reason::TooShort));
    }
    let mut frame = [0; LONGEST_BLOCK];
    let (n, rest) = scan(skip(input), &mut frame);
    if n == 0 {
        return Err(Layer::Wire.refuses(Reason::NoWholeFrame));
    }
    out[..n].copy_from_slice(&frame[..n]);
    Ok((n, rest))
}
