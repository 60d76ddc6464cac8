// The calls at a node, towards any outgoing line. Each hands on what its end's call keeps at a refusal, which a rule of
// the project has on every public call.
ghost use Rattle.std.specs.Prelude.{◌≡◌, ℕ, List, OnErr};
ghost use Rattle.block_check.specs.Law.{Code};
ghost use Rattle.rules.specs.Links.{open_link, send, poll, timeout, lose, spoil, opened, sent, polled, timed_out, lost, acts};
ghost use Rattle.link.specs.Nodes.{node, did, Still};

use crate::node::Node;
use block_check::Check;
use line::Line;
use refusal::{Layer, Reason, Refusal};
use rules::answer::{Polled, Sent, Tag};
use rules::call::Change;

#[tactic(auto, unfolding(rules::specs::Links::acts))]
impl<L: Line> Node<L> {
    pub(crate) fn open<B: Line, K: Check>(
        &mut self,
        outgoing: &mut B,
        scratch: &mut [u8],
    ) -> Result<usize, Refusal>
        ensures step { did (opened result) (node L.Line self.new) (B.Line.waiting outgoing.new) scratch.new ≡ acts K.Check.code open_link (node L.Line self.old) (B.Line.waiting outgoing.old) scratch.old }
        ensures kept { OnErr result (Still self.old self.new) }
    {
        self.end
            .open::<B, K>(self.store.as_slice(), outgoing, scratch)
    }

    pub(crate) fn send<B: Line, K: Check>(
        &mut self,
        tag: Tag,
        payload: &[u8],
        outgoing: &mut B,
        scratch: &mut [u8],
    ) -> Result<Sent, Refusal>
        ensures step { did (sent result) (node L.Line self.new) (B.Line.waiting outgoing.new) scratch.new ≡ acts K.Check.code (send tag payload.now) (node L.Line self.old) (B.Line.waiting outgoing.old) scratch.old }
        ensures kept { OnErr result (Still self.old self.new) }
    {
        self.end
            .send::<B, K>(tag, payload, &mut self.store, outgoing, scratch)
    }

    pub(crate) fn timeout<B: Line, K: Check>(
        &mut self,
        outgoing: &mut B,
        scratch: &mut [u8],
    ) -> Result<usize, Refusal>
        ensures step { did (timed_out result) (node L.Line self.new) (B.Line.waiting outgoing.new) scratch.new ≡ acts K.Check.code timeout (node L.Line self.old) (B.Line.waiting outgoing.old) scratch.old }
        ensures kept { OnErr result (Still self.old self.new) }
    {
        self.end
            .timeout::<B, K>(self.store.as_slice(), outgoing, scratch)
    }

    pub(crate) fn poll<B: Line, K: Check>(
        &mut self,
        outgoing: &mut B,
        scratch: &mut [u8],
    ) -> Result<Polled, Refusal>
        ensures step { did (polled result) (node L.Line self.new) (B.Line.waiting outgoing.new) scratch.new ≡ acts K.Check.code poll (node L.Line self.old) (B.Line.waiting outgoing.old) scratch.old }
        ensures kept { OnErr result (Still self.old self.new) }
    {
        self.end
            .poll::<L, B, K>(self.store.as_slice(), &mut self.line, outgoing, scratch)
    }

    // Drops the oldest block on the line towards the node, and touches no other line.
    pub(crate) fn lose(&mut self, scratch: &mut [u8]) -> Result<usize, Refusal>
        ensures step { (k : Code) (out : List (List ℕ)) → did (lost result) (node L.Line self.new) out scratch.new ≡ acts k lose (node L.Line self.old) out scratch.old }
        ensures kept { OnErr result (Still self.old self.new) }
    {
        if scratch.len() < 520 {
            return Err(Layer::Bench.refuses(Reason::TooShort));
        }
        self.line.take(scratch)
    }

    pub(crate) fn spoil<B: Line, K: Check>(
        &mut self,
        change: Change,
        outgoing: &mut B,
        scratch: &mut [u8],
    ) -> Result<Polled, Refusal>
        ensures step { did (polled result) (node L.Line self.new) (B.Line.waiting outgoing.new) scratch.new ≡ acts K.Check.code (spoil change.place change.addend) (node L.Line self.old) (B.Line.waiting outgoing.old) scratch.old }
        ensures kept { OnErr result (Still self.old self.new) }
    {
        self.end.spoil::<L, B, K>(
            change,
            self.store.as_slice(),
            &mut self.line,
            outgoing,
            scratch,
        )
    }
}
