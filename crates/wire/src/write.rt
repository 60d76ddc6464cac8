// The writer of the wire form.
ghost use Rattle.std.specs.Prelude.{◌≡◌, ◌+◌, ◌≤◌, length, count_by, if◌then◌else◌, Ok, Err};
ghost use Rattle.std.proofs.lemmas.List.Edits.{sets};
ghost use Rattle.refusal.specs.declared.Reason.TheVariants.{BlockLength};
ghost use Rattle.wire.specs.Calls.{refusal, unfit, measure_answer, write_answer, write_buffer};
ghost use Rattle.wire.specs.Form.{reserved, escaped};

use refusal::{Layer, Reason, Refusal};

// How many bytes a block has at most.
pub const LONGEST_BLOCK: usize = 520;

// How many bytes a frame has at most: the two ends, and two for each byte of the block.
pub const LONGEST_FRAME: usize = 2 * LONGEST_BLOCK + 2;

fn check_length(block: &[u8]) -> Result<(), Refusal>
    ensures { result ≡ (if unfit block.now then Err (refusal BlockLength) else Ok tt) }
{
    if block.is_empty() || block.len() > LONGEST_BLOCK {
        return Err(Layer::Wire.refuses(Reason::BlockLength));
    }
    Ok(())
}

fn is_reserved(b: u8) -> bool
    ensures { result ≡ reserved b }
{
    matches!(b, 0x02 | 0x03 | 0x1b)
}

// Writes the byte as it goes out inside a frame, from place `n` on, and answers the place behind it.
fn put(b: u8, out: &mut [u8], n: usize) -> usize
    requires { n + 2 ≤ length out.old }
    ensures next { result ≡ n + length (escaped b) }
    ensures after { out.new ≡ sets out.old n (escaped b) }
{
    if is_reserved(b) {
        out[n] = 0x1b;
        out[n + 1] = b + 0x80;
        n + 2
    } else {
        out[n] = b;
        n + 1
    }
}

// How many bytes of the block go out escaped.
fn count_reserved(block: &[u8]) -> usize
    ensures { result ≡ count_by reserved block.now }
{
    block.iter().filter(|b| is_reserved(**b)).count()
}

// How many bytes the block has on the wire.
#[tactic(auto, using(crate::proofs::Writing::length_framed))]
pub fn measure(block: &[u8]) -> Result<usize, Refusal>
    ensures { result ≡ measure_answer block.now }
{
    check_length(block)?;
    Ok(block.len() + count_reserved(block) + 2)
}

// Writes the block's frame to the front of `out`, and answers its length.
// A length beside the buffer: the caller lends the memory, here and in every layer. The frame is written where it stays:
// a vector of fixed room fills all of that at each call, which costs a short block more than its frame.
pub fn write(block: &[u8], out: &mut [u8]) -> Result<usize, Refusal>
    ensures answer { result ≡ write_answer block.now out.old }
    ensures after { out.new ≡ write_buffer block.now out.old }
{
    if out.len() < LONGEST_FRAME {
        return Err(Layer::Wire.refuses(Reason::TooShort));
    }
    check_length(block)?;
    out[0] = 0x02;
    let mut n = 1;
    for b in block {
        n = put(*b, out, n);
    }
    out[n] = 0x03;
    Ok(n + 1)
}
