// What an end remembers beside its outstanding frames.
ghost use Rattle.std.specs.Prelude.{◌≡◌};
ghost use Rattle.rules.specs.Frames.{origin_of};

use block::status::Status;
use login::{LogIn, Parameters};

#[derive(Clone, Copy, PartialEq, Eq, Debug)]
pub enum Side {
    Controller,
    Sled,
}

#[derive(Clone, Copy, PartialEq, Eq, Debug)]
pub enum State {
    Initial,
    Login,
    LoggedIn,
    LoggedOut,
}

// A log-in that was sent, with its number.
#[derive(Clone, Copy)]
pub struct Latest {
    pub number: u8,
    pub message: LogIn,
}

// The log-in part: the offer, which is agreed once the end is logged in, the latest log-in sent, whether that is
// acknowledged, and whether the far accept is noted.
// Two flags, since each is set and cleared without the other: an enum of the four cases would be no plainer.
#[derive(Clone, Copy)]
pub struct Talk {
    pub offer: Parameters,
    pub latest: Option<Latest>,
    pub acked: bool,
    pub far: bool,
}

// The numbers: of the next record sent, of the next one expected, and how many of the latest ones taken count as
// repeats.
#[derive(Clone, Copy)]
pub struct Flow {
    pub next: u8,
    pub expected: u8,
    pub taken: u8,
}

#[derive(Clone, Copy)]
pub struct Seat {
    pub side: Side,
    pub state: State,
    pub talk: Talk,
    pub flow: Flow,
    // timeouts in a row that had something to resend
    pub row: u8,
}

// What an end thinks of a record: a status alone, or 00h and the record is handed up.
#[derive(Clone, Copy)]
pub enum Verdict {
    Only(Status),
    Hand,
}

impl Side {
    // Origin in the headings of an end's own frames.
    pub fn origin(self) -> u8
        ensures { result ≡ origin_of self }
    {
        match self {
            Side::Controller => 0,
            Side::Sled => 1,
        }
    }
}
