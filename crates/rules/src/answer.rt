// What the calls are given and answer.
ghost use Rattle.std.specs.Prelude.{◌≡◌};

use block::heading::Heading;
use block::status::Status;

// A record without its payload. Its fields are plain numbers, since a rule of the project refuses one that is out of
// range, under the number 3, where a record is sent.
#[derive(Clone, Copy)]
pub struct Tag {
    pub origin: u8,
    pub protocol: u8,
    pub kind: u8,
    pub exchange: u16,
}

impl From<Heading> for Tag {
    ghost use Rattle.rules.specs.Calls.{tag_of};

    ghost from_gives = { λ heading tag. tag ≡ tag_of heading };

    fn from(heading: Heading) -> Tag {
        Tag {
            origin: heading.origin,
            protocol: heading.protocol,
            kind: heading.kind,
            exchange: heading.exchange,
        }
    }
}

// A send answers the record's number and how many blocks the line took.
#[derive(Clone, Copy)]
pub struct Sent {
    pub number: u8,
    pub took: usize,
}

// A record handed up: its payload stands in the scratch, at a place that no list of calls shares, and so is no `Part`.
#[derive(Clone, Copy)]
pub struct Handed {
    pub tag: Tag,
    pub place: usize,
    pub size: usize,
}

// A poll answers the status sent back, any record handed up, and how many frames it cleared and blocks the line took.
#[derive(Clone, Copy)]
pub struct Polled {
    pub status: Option<Status>,
    pub up: Option<Handed>,
    pub cleared: usize,
    pub took: usize,
}

// What an end makes of a frame.
#[derive(Clone, Copy, PartialEq, Eq, Debug)]
pub enum Heard {
    // Nothing goes back, and so many frames were cleared.
    Quiet(usize),
    // A status goes back.
    Answer(Status),
    // 00h goes back, and a new log-in follows it.
    Renew,
    // 00h goes back, and the record is handed up.
    Hand,
}

impl Heard {
    ghost use Rattle.rules.specs.Frames.{sent_back, cleared_by};

    // The status that goes back, if any.
    pub fn status(self) -> Option<Status>
        ensures { result ≡ sent_back self }
    {
        match self {
            Heard::Quiet(_) => None,
            Heard::Answer(status) => Some(status),
            Heard::Renew | Heard::Hand => Some(Status::Good),
        }
    }

    // How many frames were cleared.
    pub fn cleared(self) -> usize
        ensures { result ≡ cleared_by self }
    {
        match self {
            Heard::Quiet(cleared) => cleared,
            _ => 0,
        }
    }
}
