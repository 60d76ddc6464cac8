// What an end makes of a frame.
ghost use Rattle.std.specs.Prelude.{◌≡◌, ℕ, ◌≤◌, List};
ghost use Rattle.rules.specs.Ends.{acks_log_in, hears_good_ack, hears_ack, hears};
ghost use Rattle.block.specs.Reading.{content};
ghost use Rattle.end.specs.Views.{view};

use crate::end::End;
use block::frame::Frame;
use block::heading::{Heading, LinkMessage};
use block::status::Status;
use login::LogIn;
use rules::answer::Heard;
use rules::login_machine::good;
use rules::seat::{Seat, Verdict};

fn ack_log_in(seat: &mut Seat, number: u8)
    ensures after { seat.new ≡ acks_log_in seat.old number }
    ensures less { seat.new.talk.offer.offset ≤ seat.old.talk.offer.offset }
{
    if seat.talk.latest.is_some_and(|l| l.number == number) {
        seat.talk.acked = true;
        seat.settle();
    }
}

impl End {
    // An acknowledgement 00h.
    fn hear_good_ack(&mut self, heading: Heading) -> Heard
        ensures after { (store : List ℕ) → view self.new store ≡ (hears_good_ack (view self.old store) heading).end }
        ensures answer { (store : List ℕ) → result ≡ (hears_good_ack (view self.old store) heading).heard }
    {
        if heading.exchange == 0 {
            ack_log_in(&mut self.seat, heading.number);
            return Heard::Quiet(0);
        }
        if !self.seat.state.is_logged_in() {
            return Heard::Quiet(0);
        }
        let n = self.outstanding.find(heading.number);
        self.outstanding.clear(n);
        if n != 0 {
            self.seat.row = 0;
        }
        Heard::Quiet(n)
    }

    fn hear_ack(&mut self, frame: Frame<'_>) -> Heard
        ensures after { (store : List ℕ) → view self.new store ≡ (hears_ack (view self.old store) (content frame.entry)).end }
        ensures answer { (store : List ℕ) → result ≡ (hears_ack (view self.old store) (content frame.entry)).heard }
    {
        match frame.payload {
            [code] if *code == Status::Good.code() => self.hear_good_ack(frame.heading),
            _ => Heard::Quiet(0),
        }
    }

    #[tactic(auto, unfolding(rules::specs::Ends::hears))]
    pub(crate) fn hear(&mut self, frame: Frame<'_>) -> Heard
        ensures after { (store : List ℕ) → view self.new store ≡ (hears (view self.old store) (content frame.entry)).end }
        ensures answer { (store : List ℕ) → result ≡ (hears (view self.old store) (content frame.entry)).heard }
    {
        let heading = frame.heading;
        match heading.link_message() {
            Some(LinkMessage::Acknowledgement) => self.hear_ack(frame),
            Some(LinkMessage::LogIn) => self
                .seat
                .hear_log_in(good(heading, LogIn::decode(frame.payload))),
            _ => match self.seat.judge(heading, frame.payload.len()) {
                Verdict::Only(status) => Heard::Answer(status),
                Verdict::Hand => {
                    let offset = self.seat.talk.offer.offset;
                    self.seat.flow.take_one(offset);
                    Heard::Hand
                }
            },
        }
    }
}
