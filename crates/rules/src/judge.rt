// What an end thinks of a frame that is neither an acknowledgement nor a log-in.
ghost use Rattle.std.specs.Prelude.{◌≡◌, ℕ, List, length};
ghost use Rattle.rules.specs.Records.{after, repeats, took_one, logged_in, judged};

use crate::seat::{Flow, Seat, State, Verdict};
use block::heading::Heading;
use block::status::Status;

impl State {
    pub fn is_logged_in(self) -> bool
        ensures { result ≡ logged_in self }
    {
        self == State::LoggedIn
    }
}

// Numbers go from 1 to 255 and round again.
#[tactic(auto, unfolding(crate::specs::Records::after))]
pub fn next_number(n: u8) -> u8
    ensures { result ≡ after n }
{
    1 + n % 255
}

impl Flow {
    #[tactic(auto, unfolding(crate::specs::Records::repeats))]
    fn is_repeat(self, n: u8) -> bool
        ensures { result ≡ repeats n self.expected self.taken }
    {
        let before = (u16::from(self.expected) + 254).saturating_sub(u16::from(n)) % 255;
        n > 0 && before < u16::from(self.taken)
    }

    // The expected record was taken.
    pub fn take_one(&mut self, offset: u8)
        ensures { self.new ≡ took_one offset self.old }
    {
        self.expected = next_number(self.expected);
        self.taken = self.taken.saturating_add(1).min(offset);
    }
}

impl Seat {
    // By protocol, type, size and number, one status a case; of the payload its size alone matters.
    // Bare numbers, since a rule of the project has this decision made over ranges with guards.
    #[tactic(auto, unfolding(crate::specs::Records::judged))]
    pub fn judge(self, heading: Heading, size: usize) -> Verdict
        ensures { (payload : List ℕ) → length payload ≡ size → result ≡ judged self (record { heading = heading; payload = payload }) }
    {
        let agreed = usize::from(self.talk.offer.payload);
        match (heading.protocol, heading.kind, size, heading.number) {
            (0, 2, _, _) => Verdict::Only(Status::IllegalPause),
            (0, _, _, _) => Verdict::Only(Status::Unsupported),
            _ if !self.state.is_logged_in() => Verdict::Only(Status::LogInInProgress),
            (4..=255, _, _, _) => Verdict::Only(Status::Unsupported),
            (_, _, n, _) if n > agreed || heading.exchange == 0 => Verdict::Only(Status::BadRecord),
            (_, _, _, n) if n == self.flow.expected => Verdict::Hand,
            (_, _, _, n) if self.flow.is_repeat(n) => Verdict::Only(Status::Good),
            _ => Verdict::Only(Status::OutOfTurn),
        }
    }
}
