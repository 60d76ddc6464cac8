// A line: the blocks that wait one way, oldest first. Whatever shows this meaning is a line.
#![tactic(auto)]

ghost use Rattle.std.specs.Prelude.{◌≡◌, ℕ, ◌<◌, ◌≤◌, true, List, [], length, IfOk, slice_index_or};
ghost use Rattle.line.specs.Blocks.{carried, put_answer, put_after, take_answer, take_after, take_buffer};

use refusal::Refusal;

// How many blocks wait at most.
pub const MOST: usize = 16;

// How many bytes a block has at most.
pub const LONGEST: usize = 520;

pub trait Line {
    // The blocks that wait.
    ghost waiting: { Self → List (List ℕ) };

    // What the line relies on: making sets it up, each call needs it and keeps it.
    // The calls say so though `held` says it of every value, since a line's form is that each call shows it.
    ghost rule: { Self → Type 0 };

    // Adds a block at the end.
    fn put(&mut self, block: &[u8]) -> Result<(), Refusal>
        requires { rule self.old }
        ensures ruled { rule self.new }
        ensures answer { result ≡ put_answer (waiting self.old) block.now }
        ensures after { waiting self.new ≡ put_after (waiting self.old) block.now };

    // Moves the oldest block to the front of a buffer, and answers its length.
    // A length beside the buffer: the caller lends the memory, here and in every layer.
    fn take(&mut self, buf: &mut [u8]) -> Result<usize, Refusal>
        requires { rule self.old }
        ensures ruled { rule self.new }
        ensures answer { result ≡ take_answer (waiting self.old) buf.old }
        ensures after { waiting self.new ≡ take_after (waiting self.old) buf.old }
        ensures buffer { buf.new ≡ take_buffer (waiting self.old) buf.old }
        ensures bound { IfOk result (λ n. (1 ≤ n) × (n ≤ 520) × (n ≤ length buf.new)) };

    fn count(&self) -> usize
        requires { rule self.now }
        ensures { result ≡ length (waiting self.now) };

    // It holds of every value of the type, so that code over any line need not carry it.
    ghost held: { (x : Self) → rule x };

    ghost room: { (x : Self) → length (waiting x) ≤ 16 };

    ghost sizes: { (x : Self) (k : ℕ) → k < length (waiting x) → carried (slice_index_or (waiting x) k []) ≡ true };
}
