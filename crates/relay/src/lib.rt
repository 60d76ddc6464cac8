// A relay between any two lines. It knows nothing of a line but the trait.
#![tactic(auto)]

ghost use Rattle.std.specs.Prelude.{◌≡◌, ◌<◌, ◌≤◌, [], ◌∷◌, ◌++◌, length};
ghost use Rattle.refusal.specs.Buffers.{over};
ghost use Rattle.line.specs.Blocks.{oldest, later};
ghost use Rattle.relay.specs.Moving.{relay_answer, from_after, to_after, buffer_after};

use line::{LONGEST, Line, MOST};
use refusal::{Layer, Reason, Refusal};

// The oldest block of the one line goes to the end of the other.
fn move_one<A: Line, B: Line>(from: &mut A, to: &mut B, buf: &mut [u8])
    requires long { 520 ≤ length buf.old }
    requires some { 0 < length (A.Line.waiting from.old) }
    requires room { length (B.Line.waiting to.old) < 16 }
    ensures from { A.Line.waiting from.new ≡ later (A.Line.waiting from.old) }
    ensures to { B.Line.waiting to.new ≡ B.Line.waiting to.old ++ oldest (A.Line.waiting from.old) ∷ [] }
    ensures buffer { buf.new ≡ over (oldest (A.Line.waiting from.old)) buf.old }
{
    let n = from.take(buf).unwrap();
    to.put(&buf[..n]).unwrap();
}

// Moves what waits on one line to the other, oldest first, until the one is empty or sixteen wait on the other, and
// answers how many blocks went over.
#[tactic(auto, using(crate::proofs::Moving::moving), unfolding(crate::specs::Moving::passed))]
pub fn relay<A: Line, B: Line>(from: &mut A, to: &mut B, buf: &mut [u8]) -> Result<usize, Refusal>
    ensures answer { result ≡ relay_answer (A.Line.waiting from.old) (B.Line.waiting to.old) buf.old }
    ensures from { A.Line.waiting from.new ≡ from_after (A.Line.waiting from.old) (B.Line.waiting to.old) buf.old }
    ensures to { B.Line.waiting to.new ≡ to_after (A.Line.waiting from.old) (B.Line.waiting to.old) buf.old }
    ensures buffer { buf.new ≡ buffer_after (A.Line.waiting from.old) (B.Line.waiting to.old) buf.old }
{
    if buf.len() < LONGEST {
        return Err(Layer::Line.refuses(Reason::TooShort));
    }
    let count = from.count().min(MOST - to.count());
    for _moved in 0..count {
        move_one(from, to, buf);
    }
    Ok(count)
}
