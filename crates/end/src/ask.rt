// What an operator asks of an end: its state, what it has agreed on, and how many frames are outstanding.
ghost use Rattle.std.specs.Prelude.{◌≡◌, ℕ, List, length};
ghost use Rattle.end.specs.Views.{view, agreed_by};

use crate::end::End;
use login::Parameters;
use rules::seat::State;

impl End {
    pub fn state(&self) -> State
        ensures { (store : List ℕ) → result ≡ (view self.now store).seat.state }
    {
        self.seat.state
    }

    pub fn agreed(&self) -> Option<Parameters>
        ensures { (store : List ℕ) → result ≡ agreed_by (view self.now store) }
    {
        let seat = self.seat;
        seat.state.is_logged_in().then_some(seat.talk.offer)
    }

    pub fn outstanding(&self) -> usize
        ensures { (store : List ℕ) → result ≡ length (view self.now store).outstanding }
    {
        self.outstanding.len()
    }
}
