// Poll: the oldest block of the incoming line is taken, heard and answered.
ghost use Rattle.std.specs.Prelude.{◌≡◌, ℕ, ◌≤◌, List, length, IfOk, OnErr};
ghost use Rattle.block.specs.Reading.{content};
ghost use Rattle.rules.specs.Calls.{logged_out, handed, receives, polls};
ghost use Rattle.end.specs.Views.{view, did_receive, did_poll, takes_answer, takes_after, takes_buffer};

use crate::emit::reply;
use crate::end::End;
use crate::open::has_room;
use block::frame::Frame;
use block::heading::Heading;
use block::read::read;
use block_check::Check;
use line::Line;
use refusal::{Layer, Reason, Refusal};
use rules::answer::{Handed, Heard, Polled, Tag};
use rules::seat::State;

fn is_logged_out(state: State) -> bool
    ensures { result ≡ logged_out state }
{
    state == State::LoggedOut
}

// A record that is handed up, by its place in the scratch.
fn handed_up(heard: Heard, frame: Frame<'_>) -> Option<Handed>
    ensures { result ≡ handed heard (content frame.entry) }
{
    match heard {
        Heard::Hand => Some(Handed {
            tag: Tag::from(frame.heading),
            place: 6,
            size: frame.payload.len(),
        }),
        Heard::Quiet(_) | Heard::Answer(_) | Heard::Renew => None,
    }
}

impl End {
    // A block that was taken.
    #[tactic(auto, unfolding(rules::specs::Calls::receives))]
    pub(crate) fn receive<B: Line, K: Check>(&mut self, block: &[u8], outgoing: &mut B) -> Polled
        ensures { (store : List ℕ) → did_receive result (view self.new store) (B.Line.waiting outgoing.new) ≡ receives K.Check.code (view self.old store) block.now (B.Line.waiting outgoing.old) }
    {
        match read::<K>(block) {
            Err(status) => {
                let heard = Heard::Answer(status);
                let took = reply::<B, K>(outgoing, self.seat, Heading::default(), heard);
                Polled {
                    status: Some(status),
                    up: None,
                    cleared: 0,
                    took,
                }
            }
            Ok(frame) => {
                let heard = self.hear(frame);
                let up = handed_up(heard, frame);
                let took = reply::<B, K>(outgoing, self.seat, frame.heading, heard);
                Polled {
                    status: heard.status(),
                    up,
                    cleared: heard.cleared(),
                    took,
                }
            }
        }
    }

    // Takes the oldest block of the incoming line, unless the end is Logged-Out.
    pub(crate) fn take_block<A: Line>(
        &self,
        incoming: &mut A,
        scratch: &mut [u8],
    ) -> Result<usize, Refusal>
        ensures answer { result ≡ takes_answer self.now.seat.state (A.Line.waiting incoming.old) scratch.old }
        ensures line { A.Line.waiting incoming.new ≡ takes_after self.now.seat.state (A.Line.waiting incoming.old) scratch.old }
        ensures buffer { scratch.new ≡ takes_buffer self.now.seat.state (A.Line.waiting incoming.old) scratch.old }
        ensures bound { IfOk result (λ n. (1 ≤ n) × (n ≤ length scratch.new)) }
    {
        if is_logged_out(self.seat.state) {
            return Err(Layer::End.refuses(Reason::WrongState));
        }
        incoming.take(scratch)
    }

    #[tactic(auto, unfolding(rules::specs::Calls::polls))]
    pub fn poll<A: Line, B: Line, K: Check>(
        &mut self,
        store: &[u8],
        incoming: &mut A,
        outgoing: &mut B,
        scratch: &mut [u8],
    ) -> Result<Polled, Refusal>
        ensures step { did_poll result (view self.new store.now) (A.Line.waiting incoming.new) (B.Line.waiting outgoing.new) scratch.new ≡ polls K.Check.code (view self.old store.now) (length store.now) (A.Line.waiting incoming.old) (B.Line.waiting outgoing.old) scratch.old }
        ensures kept { OnErr result (self.new ≡ self.old) }
    {
        if !has_room(store, scratch) {
            return Err(Layer::End.refuses(Reason::TooShort));
        }
        let n = self.take_block(incoming, scratch)?;
        Ok(self.receive::<B, K>(&scratch[0..n], outgoing))
    }
}
