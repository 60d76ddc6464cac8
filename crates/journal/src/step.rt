// The calls of a run, one after the other.
ghost use Rattle.std.specs.Prelude.{◌≡◌, length, OnErr, OnOk};
ghost use Rattle.rules.specs.Steps.{act_of, answer_of};
ghost use Rattle.link.specs.Worlds.{world, end_at, outcome, steps};
ghost use Rattle.journal.specs.Pasts.{past_at};
ghost use Rattle.journal.specs.Runs.{goes_on, ran, SoFar, shows, Level};

use crate::blank::Blank;
use crate::carry::Run;
use crate::entry::{Entry, Totals};
use block_check::Check;
use line::Line;
use link::link::Link;
use rules::call::{Answer, Call, Step};
use rules::seat::Side;
use std::alloc::{AllocError, Global};

// A match on calls as values, since a rule of the project has the law of lists of calls: of closures nothing is known.
// Payloads and scratch stay two parameters: a call reads the one while it writes the other, so a struct is taken apart.
fn perform<A: Line, B: Line, K: Check>(
    link: &mut Link<A, B, K>,
    call: Call,
    payloads: &[u8],
    scratch: &mut [u8],
) -> Answer
    ensures { outcome (answer_of result) (world A.Line B.Line link.new) scratch.new ≡ steps K.Check.code (world A.Line B.Line link.old) call.side (act_of payloads.now call.step) scratch.old }
{
    match call.step {
        Step::Open => Answer::Open(link.open(call.side, scratch)),
        Step::Send(tag, part) => Answer::Send(link.send(
            call.side,
            tag,
            part.of(payloads),
            scratch,
        )),
        Step::Poll => Answer::Poll(link.poll(call.side, scratch)),
        Step::Timeout => Answer::Timeout(link.timeout(call.side, scratch)),
        Step::Lose => Answer::Lose(link.lose(call.side, scratch)),
        Step::Spoil(change) => Answer::Poll(link.spoil(call.side, change, scratch)),
    }
}

impl<A: Line, B: Line, K: Check> Run<A, B, K> {
    // How things stand at an end.
    fn totals(&self, side: Side) -> Totals
        ensures { result ≡ record { outstanding = length (end_at (world A.Line B.Line self.now.link) side).outstanding; handed = length (past_at self.now.journal side).handed } }
    {
        let past = match side {
            Side::Controller => &self.journal.controller,
            Side::Sled => &self.journal.sled,
        };
        Totals {
            outstanding: self.link.outstanding(side),
            handed: past.handed.len(),
        }
    }

    // Carries one call more out and writes it down. Memory is reserved first: without it, nothing has happened.
    #[tactic(auto, unfolding(crate::specs::Runs::goes_on, rules::specs::Links::stepped))]
    fn carry(
        &mut self,
        heap: Global,
        call: Call,
        payloads: &[u8],
        scratch: &mut [u8],
    ) -> Result<(), AllocError>
        requires { Level (shows A.Line B.Line self.old scratch.old) }
        ensures ok { OnOk result (shows A.Line B.Line self.new scratch.new ≡ goes_on K.Check.code payloads.now (shows A.Line B.Line self.old scratch.old) call) }
        ensures err { OnErr result (shows A.Line B.Line self.new scratch.new ≡ shows A.Line B.Line self.old scratch.old) }
    {
        self.journal.make_room()?;
        let blank = Blank::new(heap, scratch.len().max(call.step.payload(payloads).len()))?;
        let answer = perform(&mut self.link, call, payloads, scratch);
        self.journal.note(call, payloads, answer, scratch, blank);
        let entry = Entry {
            answer,
            controller: self.totals(Side::Controller),
            sled: self.totals(Side::Sled),
        };
        self.journal.entries.push_reserved(entry);
        Ok(())
    }

    // As far as memory lasts.
    pub(crate) fn carry_all(
        &mut self,
        heap: Global,
        calls: &[Call],
        payloads: &[u8],
        scratch: &mut [u8],
    ) -> Result<(), AllocError>
        requires { Level (shows A.Line B.Line self.old scratch.old) }
        ensures ok { OnOk result (shows A.Line B.Line self.new scratch.new ≡ ran K.Check.code payloads.now (shows A.Line B.Line self.old scratch.old) calls.now) }
        ensures err { OnErr result (SoFar K.Check.code payloads.now (shows A.Line B.Line self.old scratch.old) calls.now (shows A.Line B.Line self.new scratch.new)) }
    {
        for call in calls {
            self.carry(heap, *call, payloads, scratch)?;
        }
        Ok(())
    }
}
