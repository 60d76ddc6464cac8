// The calls of a line, on a line of wire bytes.
ghost use Rattle.std.specs.Prelude.{◌≡◌, ◌<◌, ◌≤◌, min, [], length, vec_len, MatchResult};
ghost use Rattle.refusal.specs.declared.Reason.TheVariants.{TooShort};
ghost use Rattle.line.specs.Blocks.{refusal};
ghost use Rattle.queue.specs.Contents.{copied};
ghost use Rattle.wire_line.specs.Frames.{flat};
ghost use Rattle.wire_line.specs.Waiting.{waits, relies};
ghost use Rattle.wire_line.specs.Lengths.{few_wait};

use crate::frames::{append, split_first};
use crate::held::WireLine;
use line::{LONGEST, Line, MOST};
use queue::Queue;
use refusal::{Declined, Layer, Reason, Refusal};
use wire::write::LONGEST_FRAME;

// What the frames of as many blocks as may wait take up at most.
const ROOM: usize = MOST * LONGEST_FRAME;

impl WireLine {
    // Memory that sixteen frames may not fit in is handed back with the refusal.
    #[tactic(auto, unfolding(crate::specs::Frames::blocks, crate::specs::Frames::flat))]
    pub fn new(memory: Vec<u8>) -> Result<WireLine, Declined<Vec<u8>>>
        ensures { MatchResult result (λ x. (16672 ≤ vec_len memory) × (waits x ≡ [])) (λ e. (vec_len memory < 16672) × (e.refusal ≡ refusal TooShort) × (e.given ≡ memory)) }
    {
        if memory.len() < ROOM {
            return Err(Layer::Line.declines(Reason::TooShort, memory));
        }
        Ok(WireLine {
            bytes: Queue::new(memory),
            count: 0,
        })
    }

    // Copies the frames of what waits, as they are on the wire, to the front of `out`, as many bytes as fit: how many.
    pub fn copy_bytes(&self, out: &mut [u8]) -> usize
        ensures answer { result ≡ min (length (flat (waits self.now))) (length out.old) }
        ensures out { out.new ≡ copied (flat (waits self.now)) out.old }
    {
        self.bytes.copy_oldest(out)
    }
}

impl Line for WireLine {
    ghost waiting = { waits };

    ghost rule = { relies };

    ghost held = { λ x. x.kept };

    ghost room = { few_wait };

    ghost sizes = { λ x. x.kept.each };

    #[tactic(auto, using(crate::proofs::Kept::putting))]
    fn put(&mut self, block: &[u8]) -> Result<(), Refusal> {
        if block.is_empty() || block.len() > LONGEST {
            return Err(Layer::Line.refuses(Reason::BlockLength));
        }
        if self.count >= MOST {
            return Err(Layer::Line.refuses(Reason::LineFull));
        }
        append(&mut self.bytes, block);
        self.count += 1;
        Ok(())
    }

    #[tactic(auto, using(crate::proofs::Kept::taking))]
    fn take(&mut self, buf: &mut [u8]) -> Result<usize, Refusal> {
        if buf.len() < LONGEST {
            return Err(Layer::Line.refuses(Reason::TooShort));
        }
        if self.count == 0 {
            return Err(Layer::Line.refuses(Reason::NothingWaits));
        }
        let n = split_first(&mut self.bytes, buf);
        self.count -= 1;
        Ok(n)
    }

    #[tactic(auto, using(crate::specs::Lengths::length_waits))]
    fn count(&self) -> usize {
        self.count
    }
}
