// A whole run: a link is made, and a list of calls is carried out on it.
ghost use Rattle.std.specs.Prelude.{◌≡◌};
ghost use Rattle.journal.specs.Outcomes.{CarriedOut, stops_as};

use crate::journal::Journal;
use block_check::Check;
use line::Line;
use link::link::Link;
use link::parts::{NotMade, Parts};
use refusal::Failure;
use rules::call::Call;
use std::alloc::{AllocError, Global};

// What a run leaves: the link, and what was written down.
#[derive(Drop)]
pub struct Run<A: Line, B: Line, K: Check> {
    pub link: Link<A, B, K>,
    pub journal: Journal,
}

// Why a run is not whole: no link was made, or memory ran out on the way.
#[derive(Drop)]
pub enum Stopped<A: Line, B: Line, K: Check> {
    Unmade(NotMade<A, B, K>),
    OutOfMemory(Run<A, B, K>, AllocError),
}

// Whoever has no use for what a stopped run leaves passes on why it stopped by `?`.
impl<A: Line + Drop, B: Line + Drop, K: Check + Drop> From<Stopped<A, B, K>> for Failure {
    ghost from_gives = { λ stopped failure. failure ≡ stops_as stopped };

    fn from(stopped: Stopped<A, B, K>) -> Failure {
        match stopped {
            Stopped::Unmade(not_made) => not_made.why,
            Stopped::OutOfMemory(_, e) => Failure::OutOfMemory(e),
        }
    }
}

pub fn carry_out<A: Line, B: Line, K: Check>(
    heap: Global,
    parts: Parts<A, B, K>,
    calls: &[Call],
    payloads: &[u8],
    scratch: &mut [u8],
) -> Result<Run<A, B, K>, Stopped<A, B, K>>
    ensures { CarriedOut K.Check.code A.Line B.Line parts calls.now payloads.now scratch.old result scratch.new }
{
    let link = Link::new(heap, parts).map_err(Stopped::Unmade)?;
    let journal = Journal::new(heap);
    let mut run = Run { link, journal };
    match run.carry_all(heap, calls, payloads, scratch) {
        Ok(()) => Ok(run),
        Err(e) => Err(Stopped::OutOfMemory(run, e)),
    }
}
