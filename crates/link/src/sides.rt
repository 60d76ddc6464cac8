// The calls at either side. Of each, `step` says that it did what the rules say; `law` that whatever run from a fresh
// link has led here, it leads on by this call with its answer and scratch, and the law of whole runs holds of it; and
// `kept` that a refused call has left both ends and the bytes of both stores as they were.
// Each match stays: its arms call at two types, Node<A> and Node<B>, and a trait for that needs a struct for each call.
ghost use Rattle.std.specs.Prelude.{◌≡◌, OnErr};
ghost use Rattle.rules.specs.Links.{open_link, send, poll, timeout, lose, spoil, opened, sent, polled, timed_out, lost};
ghost use Rattle.law.specs.Law.{LeadsOn};
ghost use Rattle.link.specs.Worlds.{world, outcome, steps, wrote, Unmoved};

use crate::link::Link;
use block_check::Check;
use line::Line;
use refusal::Refusal;
use rules::answer::{Polled, Sent, Tag};
use rules::call::Change;
use rules::seat::Side;

impl<A: Line, B: Line, K: Check> Link<A, B, K> {
    // The end sends its first log-in.
    pub fn open(&mut self, side: Side, scratch: &mut [u8]) -> Result<usize, Refusal>
        ensures step { outcome (opened result) (world A.Line B.Line self.new) scratch.new ≡ steps K.Check.code (world A.Line B.Line self.old) side open_link scratch.old }
        ensures law { LeadsOn K.Check.code (world A.Line B.Line self.old) (wrote side open_link (opened result) scratch.new) (world A.Line B.Line self.new) }
        ensures kept { OnErr result (Unmoved self.old self.new) }
    {
        match side {
            Side::Controller => self.controller.open::<B, K>(&mut self.sled.line, scratch),
            Side::Sled => self.sled.open::<A, K>(&mut self.controller.line, scratch),
        }
    }

    // The end sends a record.
    pub fn send(
        &mut self,
        side: Side,
        tag: Tag,
        payload: &[u8],
        scratch: &mut [u8],
    ) -> Result<Sent, Refusal>
        ensures step { outcome (sent result) (world A.Line B.Line self.new) scratch.new ≡ steps K.Check.code (world A.Line B.Line self.old) side (send tag payload.now) scratch.old }
        ensures law { LeadsOn K.Check.code (world A.Line B.Line self.old) (wrote side (send tag payload.now) (sent result) scratch.new) (world A.Line B.Line self.new) }
        ensures kept { OnErr result (Unmoved self.old self.new) }
    {
        match side {
            Side::Controller => self
                .controller
                .send::<B, K>(tag, payload, &mut self.sled.line, scratch),
            Side::Sled => self
                .sled
                .send::<A, K>(tag, payload, &mut self.controller.line, scratch),
        }
    }

    // The end takes the oldest block on the line towards it, and answers it.
    pub fn poll(&mut self, side: Side, scratch: &mut [u8]) -> Result<Polled, Refusal>
        ensures step { outcome (polled result) (world A.Line B.Line self.new) scratch.new ≡ steps K.Check.code (world A.Line B.Line self.old) side poll scratch.old }
        ensures law { LeadsOn K.Check.code (world A.Line B.Line self.old) (wrote side poll (polled result) scratch.new) (world A.Line B.Line self.new) }
        ensures kept { OnErr result (Unmoved self.old self.new) }
    {
        match side {
            Side::Controller => self.controller.poll::<B, K>(&mut self.sled.line, scratch),
            Side::Sled => self.sled.poll::<A, K>(&mut self.controller.line, scratch),
        }
    }

    // The end sends again what waits for its acknowledgement.
    pub fn timeout(&mut self, side: Side, scratch: &mut [u8]) -> Result<usize, Refusal>
        ensures step { outcome (timed_out result) (world A.Line B.Line self.new) scratch.new ≡ steps K.Check.code (world A.Line B.Line self.old) side timeout scratch.old }
        ensures law { LeadsOn K.Check.code (world A.Line B.Line self.old) (wrote side timeout (timed_out result) scratch.new) (world A.Line B.Line self.new) }
        ensures kept { OnErr result (Unmoved self.old self.new) }
    {
        match side {
            Side::Controller => self
                .controller
                .timeout::<B, K>(&mut self.sled.line, scratch),
            Side::Sled => self
                .sled
                .timeout::<A, K>(&mut self.controller.line, scratch),
        }
    }

    // The oldest block on the line towards the end is lost.
    pub fn lose(&mut self, side: Side, scratch: &mut [u8]) -> Result<usize, Refusal>
        ensures step { outcome (lost result) (world A.Line B.Line self.new) scratch.new ≡ steps K.Check.code (world A.Line B.Line self.old) side lose scratch.old }
        ensures law { LeadsOn K.Check.code (world A.Line B.Line self.old) (wrote side lose (lost result) scratch.new) (world A.Line B.Line self.new) }
        ensures kept { OnErr result (Unmoved self.old self.new) }
    {
        match side {
            Side::Controller => self.controller.lose(scratch),
            Side::Sled => self.sled.lose(scratch),
        }
    }

    // A poll of a block of which a byte was changed on its way.
    pub fn spoil(
        &mut self,
        side: Side,
        change: Change,
        scratch: &mut [u8],
    ) -> Result<Polled, Refusal>
        ensures step { outcome (polled result) (world A.Line B.Line self.new) scratch.new ≡ steps K.Check.code (world A.Line B.Line self.old) side (spoil change.place change.addend) scratch.old }
        ensures law { LeadsOn K.Check.code (world A.Line B.Line self.old) (wrote side (spoil change.place change.addend) (polled result) scratch.new) (world A.Line B.Line self.new) }
        ensures kept { OnErr result (Unmoved self.old self.new) }
    {
        match side {
            Side::Controller => self
                .controller
                .spoil::<B, K>(change, &mut self.sled.line, scratch),
            Side::Sled => self
                .sled
                .spoil::<A, K>(change, &mut self.controller.line, scratch),
        }
    }
}
