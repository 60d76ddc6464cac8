// Open: an end in Initial sends its first log-in.
ghost use Rattle.std.specs.Prelude.{◌≡◌, length, OnErr};
ghost use Rattle.rules.specs.Calls.{roomy, initial, opens};
ghost use Rattle.end.specs.Views.{view, did};

use crate::emit::emit_log_in;
use crate::end::End;
use block_check::Check;
use line::Line;
use login::LogIn;
use refusal::{Layer, Reason, Refusal};
use rules::seat::{Latest, State, Talk};

// Whether a call has the room that it asks for, which a rule of the project has lent at each call. Poll and spoil ask
// alone; the calls that build in the scratch, or read a whole store, take an array of it.
pub(crate) fn has_room(store: &[u8], scratch: &[u8]) -> bool
    ensures { result ≡ roomy (length store.now) scratch.now }
{
    scratch.len() >= 520 && store.len() >= 4096
}

fn is_initial(state: State) -> bool
    ensures { result ≡ initial state }
{
    state == State::Initial
}

// Each call of an end says for itself what a refusal keeps, since a rule of the project pins each by its own contract.
impl End {
    #[tactic(auto, unfolding(rules::specs::Calls::opens))]
    pub fn open<B: Line, K: Check>(
        &mut self,
        store: &[u8],
        outgoing: &mut B,
        scratch: &mut [u8],
    ) -> Result<usize, Refusal>
        ensures step { did result (view self.new store.now) (B.Line.waiting outgoing.new) scratch.new ≡ opens K.Check.code (view self.old store.now) (length store.now) (B.Line.waiting outgoing.old) scratch.old }
        ensures kept { OnErr result (self.new ≡ self.old) }
    {
        if store.len() < 4096 {
            return Err(Layer::End.refuses(Reason::TooShort));
        }
        let Some(buf) = scratch.first_chunk_mut::<520>() else {
            return Err(Layer::End.refuses(Reason::TooShort));
        };
        if !is_initial(self.seat.state) {
            return Err(Layer::End.refuses(Reason::NotInitial));
        }
        let message = LogIn {
            accept: false,
            parameters: self.seat.talk.offer,
        };
        let latest = Latest { number: 1, message };
        let took = emit_log_in::<B, K>(outgoing, self.seat.side, latest, buf);
        self.seat.talk = Talk {
            latest: Some(latest),
            acked: false,
            ..self.seat.talk
        };
        self.seat.go(State::Login);
        Ok(took)
    }
}
