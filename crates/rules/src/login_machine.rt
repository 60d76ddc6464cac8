// How an end logs in.
ghost use Rattle.std.specs.Prelude.{◌≡◌, ◌≤◌};
ghost use Rattle.rules.specs.LogIns.{smaller, good_of, differs, number_sent, settled, negotiated, hears_log_in};

use crate::answer::Heard;
use crate::seat::{Latest, Seat, State, Talk};
use block::heading::Heading;
use block::status::Status;
use login::{LogIn, Parameters};

// An end sends no more log-ins than this.
const LOG_INS: u8 = 8;

fn smaller_of(a: Parameters, b: Parameters) -> Parameters
    ensures { result ≡ smaller a b }
{
    Parameters {
        offset: a.offset.min(b.offset),
        payload: a.payload.min(b.payload),
        baud: a.baud.min(b.baud),
    }
}

// The log-in under a heading, none where it is bad.
pub fn good(heading: Heading, log_in: Option<LogIn>) -> Option<LogIn>
    ensures { result ≡ good_of heading log_in }
{
    log_in.filter(|l| {
        heading.number != 0
            && l.parameters.baud != 0
            && heading.exchange == 0
            && l.parameters.payload >= 270
    })
}

// Whether a log-in says something else than the last one sent.
fn says_more(latest: Option<Latest>, accept: bool, offer: Parameters) -> bool
    ensures { result ≡ differs latest accept offer }
{
    let message = LogIn {
        accept,
        parameters: offer,
    };
    latest.is_none_or(|l| l.message != message)
}

fn sent_number(latest: Option<Latest>) -> u8
    ensures { result ≡ number_sent latest }
{
    latest.map_or(0, |l| l.number)
}

impl Seat {
    // Another state ends the row of timeouts.
    pub fn go(&mut self, state: State)
        ensures { self.new ≡ Rattle.rules.specs.LogIns.moved state self.old }
    {
        self.state = state;
        self.row = 0;
    }

    // Logged in, once its own accept is acknowledged and the other's is noted.
    // `less` is a clause, here and below: as an invariant of the public `Talk` it would be asked of whoever makes one.
    pub fn settle(&mut self)
        ensures after { self.new ≡ settled self.old }
        ensures less { self.new.talk.offer.offset ≤ self.old.talk.offer.offset }
    {
        match (self.state, self.talk.latest) {
            (State::Login, Some(l)) if l.message.accept && self.talk.acked && self.talk.far =>
                self.go(State::LoggedIn),
            _ => {}
        }
    }

    // A good log-in in Initial or Login.
    #[tactic(auto, unfolding(crate::specs::LogIns::negotiated))]
    fn negotiate(&mut self, got: LogIn) -> Heard
        ensures after { self.new ≡ (negotiated self.old got).seat }
        ensures answer { result ≡ (negotiated self.old got).heard }
        ensures less { self.new.talk.offer.offset ≤ self.old.talk.offer.offset }
    {
        let offer = smaller_of(self.talk.offer, got.parameters);
        let accept = offer == got.parameters;
        let far = got.accept && accept;
        if !says_more(self.talk.latest, accept, offer) {
            self.talk.offer = offer;
            self.talk.far = far;
            self.settle();
            return Heard::Answer(Status::Good);
        }
        let number = sent_number(self.talk.latest);
        if number >= LOG_INS {
            self.go(State::LoggedOut);
            return Heard::Answer(Status::BadLogIn);
        }
        let latest = Latest {
            number: number + 1,
            message: LogIn {
                accept,
                parameters: offer,
            },
        };
        self.talk = Talk {
            offer,
            latest: Some(latest),
            acked: false,
            far,
        };
        self.go(State::Login);
        Heard::Renew
    }

    // A log-in was received, none standing for a bad one: own state and received frame decide together.
    pub fn hear_log_in(&mut self, got: Option<LogIn>) -> Heard
        ensures after { self.new ≡ (hears_log_in self.old.state got self.old).seat }
        ensures answer { result ≡ (hears_log_in self.old.state got self.old).heard }
        ensures less { self.new.talk.offer.offset ≤ self.old.talk.offer.offset }
    {
        match (self.state, got) {
            (_, None) => Heard::Answer(Status::BadLogIn),
            (State::Initial | State::Login, Some(l)) => self.negotiate(l),
            (State::LoggedIn, Some(l)) if l.accept && l.parameters == self.talk.offer =>
                Heard::Answer(Status::Good),
            (State::LoggedIn, Some(_)) => {
                self.go(State::LoggedOut);
                Heard::Answer(Status::BadLogIn)
            }
            (State::LoggedOut, Some(_)) => Heard::Answer(Status::BadLogIn),
        }
    }
}
