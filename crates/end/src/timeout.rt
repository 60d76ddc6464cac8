// Timeout: what waits for its acknowledgement goes out again.
ghost use Rattle.std.specs.Prelude.{◌≡◌, ℕ, not, List, length, OnErr, ◌==◌};
ghost use Rattle.rules.specs.Calls.{idle, due, times_out};
ghost use Rattle.rules.specs.Sending.{blocks, puts, took, builds};
ghost use Rattle.outstanding.specs.Frames.{frames};
ghost use Rattle.end.specs.Views.{view, did};

use crate::emit::{Buffer, emit, emit_latest};
use crate::end::End;
use block_check::Check;
use line::Line;
use outstanding::Outstanding;
use refusal::{Layer, Reason, Refusal};
use rules::seat::{Seat, State};

// So many timeouts in a row send again; the next one logs the end out.
const RESENDS: u8 = 3;

// Payloads of outstanding frames stand here.
type Store = [u8; 4096];

// Sends every outstanding frame again, oldest first.
fn resend_frames<B: Line, K: Check>(
    outstanding: &Outstanding,
    store: &Store,
    outgoing: &mut B,
    buf: &mut Buffer,
) -> usize
    ensures answer { result ≡ took (B.Line.waiting outgoing.old) (blocks K.Check.code (frames outstanding.now store.now)) }
    ensures line { B.Line.waiting outgoing.new ≡ puts (B.Line.waiting outgoing.old) (blocks K.Check.code (frames outstanding.now store.now)) }
    ensures buffer { buf.new ≡ builds buf.old (blocks K.Check.code (frames outstanding.now store.now)) }
{
    let mut taken = 0;
    // by place: the check makes no proof of a `for` over a `filter_map` whose closure borrows, as one over `get` does
    for k in 0..outstanding.len() {
        if let Some(frame) = outstanding.get(k, store) {
            taken += emit::<B, K>(outgoing, frame, buf);
        }
    }
    taken
}

fn is_idle(state: State) -> bool
    ensures { result ≡ idle state }
{
    matches!(state, State::Initial | State::LoggedOut)
}

impl End {
    // Whether something waits for its acknowledgement.
    fn waits(&self) -> bool
        ensures { (store : List ℕ) → result ≡ not (length (due self.now.seat.state (view self.now store)) == 0) }
    {
        match self.seat.state {
            State::Login => self.seat.talk.latest.is_some(),
            State::LoggedIn => self.outstanding.len() > 0,
            State::Initial | State::LoggedOut => false,
        }
    }

    fn resend<B: Line, K: Check>(&self, store: &Store, outgoing: &mut B, buf: &mut Buffer) -> usize
        ensures answer { result ≡ took (B.Line.waiting outgoing.old) (blocks K.Check.code (due self.now.seat.state (view self.now store.now))) }
        ensures line { B.Line.waiting outgoing.new ≡ puts (B.Line.waiting outgoing.old) (blocks K.Check.code (due self.now.seat.state (view self.now store.now))) }
        ensures buffer { buf.new ≡ builds buf.old (blocks K.Check.code (due self.now.seat.state (view self.now store.now))) }
    {
        let Seat { side, talk, .. } = self.seat;
        match self.seat.state {
            State::Login => emit_latest::<B, K>(outgoing, side, talk.latest, buf),
            State::LoggedIn => resend_frames::<B, K>(&self.outstanding, store, outgoing, buf),
            State::Initial | State::LoggedOut => 0,
        }
    }

    #[tactic(auto, unfolding(rules::specs::Calls::times_out))]
    pub fn timeout<B: Line, K: Check>(
        &mut self,
        store: &[u8],
        outgoing: &mut B,
        scratch: &mut [u8],
    ) -> Result<usize, Refusal>
        ensures step { did result (view self.new store.now) (B.Line.waiting outgoing.new) scratch.new ≡ times_out K.Check.code (view self.old store.now) (length store.now) (B.Line.waiting outgoing.old) scratch.old }
        ensures kept { OnErr result (self.new ≡ self.old) }
    {
        let Some(store) = store.first_chunk::<4096>() else {
            return Err(Layer::End.refuses(Reason::TooShort));
        };
        let Some(buf) = scratch.first_chunk_mut::<520>() else {
            return Err(Layer::End.refuses(Reason::TooShort));
        };
        if is_idle(self.seat.state) {
            return Err(Layer::End.refuses(Reason::WrongState));
        }
        if !self.waits() {
            return Ok(0);
        }
        if self.seat.row >= RESENDS {
            self.seat.go(State::LoggedOut);
            return Ok(0);
        }
        let taken = self.resend::<B, K>(store, outgoing, buf);
        self.seat.row += 1;
        Ok(taken)
    }
}
