// Building a block: begin with a heading, add, seal. Each call tests the buffer that it is lent, since a rule of the
// project refuses a short one under the number 1.
ghost use Rattle.std.specs.Prelude.{◌≡◌, ◌+◌, ◌≤◌, true, length, take};
ghost use Rattle.refusal.specs.Buffers.{placed};
ghost use Rattle.block.specs.Form.{header, check_bytes, in_range};
ghost use Rattle.block.specs.Building.{refusal, back, begun, added, closed, built, begin_answer, begin_buffer, add_answer, add_buffer, seal_answer, seal_buffer, build_answer, build_buffer, bytes_answer, lent};

use crate::half::{HalfMade, Sealed};
use crate::heading::Heading;
use block_check::Check;
use refusal::{Declined, Layer, Reason, Refusal};

// Writes `part` at the place `at`.
#[tactic(auto, using(refusal::proofs::Buffers::pasted))]
fn paste(buf: &mut [u8], at: usize, part: &[u8])
    requires { at + length part.now ≤ length buf.old }
    ensures { buf.new ≡ placed at part.now buf.old }
{
    buf[at..at + part.len()].copy_from_slice(part);
}

impl Heading {
    // The header of a block with nothing in it yet.
    fn header(self) -> [u8; 6]
        requires { in_range self ≡ true }
        ensures { result ≡ header self 0 }
    {
        let first = 128 * self.origin + 16 * self.protocol + self.kind;
        let [exchange_high, exchange_low] = self.exchange.to_be_bytes();
        [first, self.number, exchange_high, exchange_low, 0, 0]
    }
}

// Writes the header with size 0 to the front of the buffer.
pub fn begin(heading: Heading, buf: &mut [u8]) -> Result<HalfMade, Refusal>
    ensures answer { begun result ≡ begin_answer heading buf.old }
    ensures after { buf.new ≡ begin_buffer heading buf.old }
{
    if buf.len() < 520 {
        return Err(Layer::Block.refuses(Reason::TooShort));
    }
    if !heading.is_in_range() {
        return Err(Layer::Block.refuses(Reason::HeadingOutOfRange));
    }
    paste(buf, 0, &heading.header());
    Ok(HalfMade { size: 0 })
}

// Writes the check of the first `n` bytes behind them, and answers how long they are with it.
fn close<K: Check>(n: usize, buf: &mut [u8]) -> usize
    requires { n + 2 ≤ length buf.old }
    ensures answer { result ≡ n + K.Check.code.width }
    ensures after { buf.new ≡ placed n (check_bytes K.Check.code.width (K.Check.code.value (take n buf.old))) buf.old }
{
    let w = K::width();
    let value = K::value(&buf[0..n]).to_be_bytes();
    paste(buf, n, &value[2 - w..]);
    n + w
}

impl HalfMade {
    // Hands itself back.
    fn declines(self, reason: Reason) -> Declined<HalfMade>
        ensures { back result ≡ record { refusal = refusal reason; size = self.size } }
    {
        Layer::Block.declines(reason, self)
    }

    // Writes `more` behind what is there.
    pub fn add(self, more: &[u8], buf: &mut [u8]) -> Result<HalfMade, Declined<HalfMade>>
        ensures answer { added result ≡ add_answer self.size more.now buf.old }
        ensures after { buf.new ≡ add_buffer self.size more.now buf.old }
    {
        if buf.len() < 520 {
            return Err(self.declines(Reason::TooShort));
        }
        if more.len() > 512 - self.size {
            return Err(self.declines(Reason::PayloadTooLong));
        }
        paste(buf, 6 + self.size, more);
        Ok(HalfMade {
            size: self.size + more.len(),
        })
    }

    // Writes size and check.
    pub fn seal<K: Check>(self, buf: &mut [u8]) -> Result<Sealed, Declined<HalfMade>>
        ensures answer { closed result ≡ seal_answer K.Check.code.width self.size buf.old }
        ensures after { buf.new ≡ seal_buffer K.Check.code.width K.Check.code.value self.size buf.old }
    {
        if buf.len() < 520 {
            return Err(self.declines(Reason::TooShort));
        }
        paste(buf, 4, &(self.size as u16).to_be_bytes());
        let len = close::<K>(6 + self.size, buf);
        Ok(Sealed { len })
    }
}

impl Sealed {
    pub fn len(&self) -> usize
        ensures { result ≡ self.now.len }
    {
        self.len
    }

    // The block in the buffer that it was sealed in.
    pub fn bytes<'a>(&self, buf: &'a [u8]) -> Result<&'a [u8], Refusal>
        ensures { lent result ≡ bytes_answer self.now.len buf.now }
    {
        if buf.len() < 520 {
            return Err(Layer::Block.refuses(Reason::TooShort));
        }
        Ok(&buf[0..self.len])
    }
}

// A whole block at the front of the buffer: begun, added to and sealed. Every refusal comes before the first write.
pub fn build<K: Check>(heading: Heading, payload: &[u8], buf: &mut [u8]) -> Result<Sealed, Refusal>
    ensures answer { built result ≡ build_answer K.Check.code.width K.Check.code.value heading payload.now buf.old }
    ensures after { buf.new ≡ build_buffer K.Check.code.width K.Check.code.value heading payload.now buf.old }
{
    if buf.len() >= 520 && heading.is_in_range() && payload.len() > 512 {
        return Err(Layer::Block.refuses(Reason::PayloadTooLong));
    }
    let half = begin(heading, buf)?;
    let half = half.add(payload, buf)?;
    let sealed = half.seal::<K>(buf)?;
    Ok(sealed)
}
