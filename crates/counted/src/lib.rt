// A line over any line that counts the puts it refuses. It is a line itself, shown from the trait alone.
#![tactic(auto)]

ghost use Rattle.std.specs.Prelude.{◌≡◌, ◌≤◌, length, IfOk};
ghost use Rattle.counted.specs.Counting.{refused_after};
ghost use Rattle.line.specs.Blocks.{put_answer, put_after, take_answer, take_after, take_buffer};
ghost use Rattle.std.proofs.Common.{rules};

use line::Line;
use refusal::Refusal;

#[derive(Drop)]
pub struct Counted<L: Line> {
    line: L,
    refused: usize,
}

impl<L: Line> Counted<L> {
    pub fn new(line: L) -> Counted<L>
        ensures line { result.line ≡ line }
        ensures refused { result.refused ≡ 0 }
    {
        Counted { line, refused: 0 }
    }

    // How many puts were refused.
    pub fn refused(&self) -> usize
        ensures { result ≡ self.now.refused }
    {
        self.refused
    }
}

impl<L: Line> Line for Counted<L> {
    ghost waiting = { λ x. L.Line.waiting x.line };

    ghost rule = { λ x. L.Line.rule x.line };

    ghost held = { Prim.search rules };

    ghost room = { Prim.search rules };

    ghost sizes = { Prim.search rules };

    // The trait's clauses stand again in `put` and `take`: left out, what the trait ensures is no longer shown.
    fn put(&mut self, block: &[u8]) -> Result<(), Refusal>
        requires { L.Line.rule self.old.line }
        ensures ruled { L.Line.rule self.new.line }
        ensures answer { result ≡ put_answer (L.Line.waiting self.old.line) block.now }
        ensures after { L.Line.waiting self.new.line ≡ put_after (L.Line.waiting self.old.line) block.now }
        ensures counted { self.new.refused ≡ refused_after self.old.refused (L.Line.waiting self.old.line) block.now }
    {
        let answer = self.line.put(block);
        if answer.is_err() {
            self.refused = self.refused.saturating_add(1);
        }
        answer
    }

    fn take(&mut self, buf: &mut [u8]) -> Result<usize, Refusal>
        requires { L.Line.rule self.old.line }
        ensures ruled { L.Line.rule self.new.line }
        ensures answer { result ≡ take_answer (L.Line.waiting self.old.line) buf.old }
        ensures after { L.Line.waiting self.new.line ≡ take_after (L.Line.waiting self.old.line) buf.old }
        ensures buffer { buf.new ≡ take_buffer (L.Line.waiting self.old.line) buf.old }
        ensures bound { IfOk result (λ n. (1 ≤ n) × (n ≤ 520) × (n ≤ length buf.new)) }
        ensures counted { self.new.refused ≡ self.old.refused }
    {
        self.line.take(buf)
    }

    fn count(&self) -> usize {
        self.line.count()
    }
}
