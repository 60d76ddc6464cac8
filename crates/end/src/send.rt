// Send: a record gets its number, is outstanding and goes out.
ghost use Rattle.std.specs.Prelude.{◌≡◌, ℕ, ◌<◌, ◌≤◌, true, List, length, OnErr, OnOk};
ghost use Rattle.block.specs.Form.{in_range};
ghost use Rattle.block.specs.Reading.{content};
ghost use Rattle.rules.specs.Calls.{tag_in_range, may_send, numbered, enters, sends_record};
ghost use Rattle.outstanding.specs.Frames.{frames};
ghost use Rattle.end.specs.Views.{view, did};

use crate::emit::emit;
use crate::end::End;
use block::frame::Frame;
use block::heading::{Heading, Protocol};
use block_check::Check;
use line::Line;
use refusal::{Layer, Reason, Refusal};
use rules::answer::{Sent, Tag};
use rules::judge::next_number;

fn is_in_range(tag: Tag) -> bool
    ensures { result ≡ tag_in_range tag }
{
    let carried = Protocol::Scsi as u8..=Protocol::Vendor as u8;
    tag.origin < 2 && carried.contains(&tag.protocol) && tag.kind < 16 && 1 <= tag.exchange
}

fn heading_of(tag: Tag, number: u8) -> Heading
    requires { tag_in_range tag ≡ true }
    ensures value { result ≡ numbered tag number }
    ensures fields { in_range result ≡ true }
{
    Heading {
        origin: tag.origin,
        protocol: tag.protocol,
        kind: tag.kind,
        number,
        exchange: tag.exchange,
    }
}

impl End {
    fn may_send(&self, tag: Tag, size: usize) -> Result<(), Refusal>
        ensures answer { (store : List ℕ) → result ≡ may_send (view self.now store) tag size }
        ensures ok { OnOk result ((tag_in_range tag ≡ true) × (size ≤ 512) × ((store : List ℕ) → length (frames self.now.outstanding store) < 8)) }
    {
        if !is_in_range(tag) {
            return Err(Layer::End.refuses(Reason::HeadingOutOfRange));
        }
        if size > 512 {
            return Err(Layer::End.refuses(Reason::PayloadTooLong));
        }
        if !self.seat.state.is_logged_in() {
            return Err(Layer::End.refuses(Reason::WrongState));
        }
        if size > usize::from(self.seat.talk.offer.payload) {
            return Err(Layer::End.refuses(Reason::AboveAgreedSize));
        }
        if self.outstanding.len() >= usize::from(self.seat.talk.offer.offset) {
            return Err(Layer::End.refuses(Reason::WindowFull));
        }
        Ok(())
    }

    // Makes a frame outstanding, which has used the next number.
    fn enter(&mut self, frame: Frame<'_>, store: &mut [u8])
        requires long { 4096 ≤ length store.old }
        requires room { length (frames self.old.outstanding store.old) < 8 }
        ensures { view self.new store.new ≡ enters (view self.old store.old) (content frame.entry) }
    {
        self.seat.flow.next = next_number(self.seat.flow.next);
        // there is room for it: `may_send` has tested that
        self.outstanding
            .push(frame.heading, frame.payload, store)
            .unwrap();
    }

    #[tactic(auto, unfolding(rules::specs::Calls::sends_record))]
    pub fn send<B: Line, K: Check>(
        &mut self,
        tag: Tag,
        payload: &[u8],
        store: &mut [u8],
        outgoing: &mut B,
        scratch: &mut [u8],
    ) -> Result<Sent, Refusal>
        ensures step { did result (view self.new store.new) (B.Line.waiting outgoing.new) scratch.new ≡ sends_record K.Check.code (view self.old store.old) tag payload.now (length store.old) (B.Line.waiting outgoing.old) scratch.old }
        ensures kept { OnErr result ((self.new ≡ self.old) × (store.new ≡ store.old)) }
    {
        if store.len() < 4096 {
            return Err(Layer::End.refuses(Reason::TooShort));
        }
        let Some(buf) = scratch.first_chunk_mut::<520>() else {
            return Err(Layer::End.refuses(Reason::TooShort));
        };
        self.may_send(tag, payload.len())?;
        let heading = heading_of(tag, self.seat.flow.next);
        let frame = Frame { heading, payload };
        self.enter(frame, store);
        let took = emit::<B, K>(outgoing, frame, buf);
        Ok(Sent {
            number: frame.heading.number,
            took,
        })
    }
}
