// Spoil: a poll whose block had one byte changed on its way.
ghost use Rattle.std.specs.Prelude.{◌≡◌, ◌≤◌, length, OnErr};
ghost use Rattle.rules.specs.Links.{spoiled, spoils};
ghost use Rattle.end.specs.Views.{view, did_poll};

use crate::end::End;
use crate::open::has_room;
use block_check::Check;
use line::Line;
use refusal::{Layer, Reason, Refusal};
use rules::answer::Polled;
use rules::call::Change;

// Changes one byte of a block of length `n` at the front of the scratch.
fn spoil_block(scratch: &mut [u8], n: usize, change: Change)
    requires some { 1 ≤ n }
    requires within { n ≤ length scratch.old }
    ensures { scratch.new ≡ spoiled change.place change.addend n scratch.old }
{
    let at = change.place % n;
    scratch[at] = scratch[at].wrapping_add(change.addend);
}

impl End {
    #[tactic(auto, unfolding(rules::specs::Links::spoils))]
    pub fn spoil<A: Line, B: Line, K: Check>(
        &mut self,
        change: Change,
        store: &[u8],
        incoming: &mut A,
        outgoing: &mut B,
        scratch: &mut [u8],
    ) -> Result<Polled, Refusal>
        ensures step { did_poll result (view self.new store.now) (A.Line.waiting incoming.new) (B.Line.waiting outgoing.new) scratch.new ≡ spoils K.Check.code change.place change.addend (view self.old store.now) (length store.now) (A.Line.waiting incoming.old) (B.Line.waiting outgoing.old) scratch.old }
        ensures kept { OnErr result (self.new ≡ self.old) }
    {
        if !has_room(store, scratch) {
            return Err(Layer::Bench.refuses(Reason::TooShort));
        }
        if change.addend == 0 {
            return Err(Layer::Bench.refuses(Reason::SpoilByZero));
        }
        let n = self.take_block(incoming, scratch)?;
        spoil_block(scratch, n, change);
        Ok(self.receive::<B, K>(&scratch[0..n], outgoing))
    }
}
