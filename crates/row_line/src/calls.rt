// The calls of a line, on a line of rows.
ghost use Rattle.std.specs.Prelude.{◌≡◌, ◌<◌, ◌≤◌, [], length, IfOk, vec_len, MatchResult};
ghost use Rattle.refusal.specs.declared.Reason.TheVariants.{TooShort};
ghost use Rattle.line.specs.Blocks.{refusal};
ghost use Rattle.row_line.specs.Waiting.{block_of, waits, relies};
ghost use Rattle.row_line.specs.Relied.{relied};

use crate::row::Row;
use crate::rows::RowLine;
use line::{LONGEST, Line, MOST};
use queue::Queue;
use refusal::{Declined, Layer, Reason, Refusal};

impl RowLine {
    // Memory for fewer than sixteen rows is handed back with the refusal.
    pub fn new(memory: Vec<Row>) -> Result<RowLine, Declined<Vec<Row>>>
        ensures cases { MatchResult result (λ x. (16 ≤ vec_len memory) × (waits x ≡ [])) (λ e. (vec_len memory < 16) × (e.refusal ≡ refusal TooShort) × (e.given ≡ memory)) }
        ensures ruled { IfOk result relies }
    {
        if memory.len() < MOST {
            return Err(Layer::Line.declines(Reason::TooShort, memory));
        }
        Ok(RowLine {
            rows: Queue::new(memory),
        })
    }
}

impl Row {
    fn of(block: &[u8]) -> Row
        requires { (1 ≤ length block.now) × (length block.now ≤ 520) }
        ensures { block_of result ≡ block.now }
    {
        let mut bytes = [0; LONGEST];
        bytes[..block.len()].copy_from_slice(block);
        Row {
            len: block.len(),
            bytes,
        }
    }

    fn block(&self) -> &[u8]
        ensures { result.now ≡ block_of self.now }
    {
        &self.bytes[..self.len]
    }
}

impl Line for RowLine {
    ghost waiting = { waits };

    ghost rule = { relies };

    ghost held = { λ x. relied x.rows x.long x.few };

    ghost room = { λ x. (relied x.rows x.long x.few).1 };

    ghost sizes = { λ x. (relied x.rows x.long x.few).2 };

    // The tests are those of the wire line too: a function for each, with its definition, would be no plainer.
    fn put(&mut self, block: &[u8]) -> Result<(), Refusal> {
        if block.is_empty() || block.len() > LONGEST {
            return Err(Layer::Line.refuses(Reason::BlockLength));
        }
        if self.rows.len() >= MOST {
            return Err(Layer::Line.refuses(Reason::LineFull));
        }
        // There is memory for sixteen, so this cannot fail.
        self.rows.push(Row::of(block)).unwrap();
        Ok(())
    }

    #[tactic(auto, using(crate::specs::Relied::relied))]
    fn take(&mut self, buf: &mut [u8]) -> Result<usize, Refusal> {
        if buf.len() < LONGEST {
            return Err(Layer::Line.refuses(Reason::TooShort));
        }
        let Some(row) = self.rows.as_slice().first() else {
            return Err(Layer::Line.refuses(Reason::NothingWaits));
        };
        let n = row.len;
        buf[..n].copy_from_slice(row.block());
        self.rows.drop_oldest(1);
        Ok(n)
    }

    fn count(&self) -> usize {
        self.rows.len()
    }
}
