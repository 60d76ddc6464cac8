// Writing down what a call answered, in memory that was reserved before the call.
ghost use Rattle.std.specs.Prelude.{◌≡◌, ◌^◌, ◌<◌, [], OnOk};
ghost use Rattle.rules.specs.Steps.{act_of, answer_of};
ghost use Rattle.rules.specs.declared.seat.Side.TheVariants.{Controller, Sled};
ghost use Rattle.law.specs.Journals.{nothing, with_answer, with_entry};
ghost use Rattle.link.specs.Worlds.{wrote};
ghost use Rattle.journal.specs.Pasts.{past_of, RoomOn, Room, Serves};

use crate::blank::Blank;
use crate::journal::Journal;
use crate::past::Past;
use rules::call::{Answer, Call, Part, Step};
use rules::seat::Side;
use std::alloc::{AllocError, Global};

impl Past {
    pub(crate) fn new(heap: Global) -> Past
        ensures { past_of result ≡ nothing }
    {
        Past {
            accepted: Vec::new(heap),
            handed: Vec::new(heap),
            cleared: 0,
        }
    }

    // Room for one record more on each list.
    pub(crate) fn make_room(&mut self) -> Result<(), AllocError>
        ensures same { past_of self.new ≡ past_of self.old }
        ensures room { OnOk result (RoomOn self.new) }
    {
        self.accepted.reserve(1)?;
        self.handed.reserve(1)
    }

    // The record of a send that was not refused; and of a poll the record that it handed up, as the scratch holds it,
    // and how many frames it cleared.
    #[tactic(auto, unfolding(law::specs::Journals::with_answer))]
    pub(crate) fn note(
        &mut self,
        step: Step,
        payloads: &[u8],
        answer: Answer,
        scratch: &[u8],
        blank: Blank,
    )
        requires room { RoomOn self.old }
        requires serves { Serves blank payloads.now step scratch.now }
        requires sum { (with_answer (past_of self.old) (act_of payloads.now step) scratch.now (answer_of answer)).cleared < 2 ^ 63 }
        ensures { past_of self.new ≡ with_answer (past_of self.old) (act_of payloads.now step) scratch.now (answer_of answer) }
    {
        match answer {
            Answer::Send(Ok(_)) => {
                if let Step::Send(tag, part) = step {
                    self.accepted
                        .push_reserved(blank.record(tag, part.of(payloads)));
                }
            }
            Answer::Poll(Ok(polled)) => {
                self.cleared += polled.cleared;
                if let Some(up) = polled.up {
                    let part = Part {
                        place: up.place,
                        size: up.size,
                    };
                    self.handed
                        .push_reserved(blank.record(up.tag, part.of(scratch)));
                }
            }
            _ => {}
        }
    }
}

impl Journal {
    pub(crate) fn new(heap: Global) -> Journal
        ensures entries { result.entries.items ≡ [] }
        ensures controller { past_of result.controller ≡ nothing }
        ensures sled { past_of result.sled ≡ nothing }
    {
        Journal {
            entries: Vec::new(heap),
            controller: Past::new(heap),
            sled: Past::new(heap),
        }
    }

    // Room for whatever one call more may answer.
    pub(crate) fn make_room(&mut self) -> Result<(), AllocError>
        ensures entries { self.new.entries.items ≡ self.old.entries.items }
        ensures controller { past_of self.new.controller ≡ past_of self.old.controller }
        ensures sled { past_of self.new.sled ≡ past_of self.old.sled }
        ensures room { OnOk result (Room self.new) }
    {
        self.entries.reserve(1)?;
        self.controller.make_room()?;
        self.sled.make_room()
    }

    // Writes an answer down in the past of the end at whose side the call was.
    pub(crate) fn note(
        &mut self,
        call: Call,
        payloads: &[u8],
        answer: Answer,
        scratch: &[u8],
        blank: Blank,
    )
        requires room { Room self.old }
        requires serves { Serves blank payloads.now call.step scratch.now }
        requires controller { (with_entry Controller (past_of self.old.controller) (wrote call.side (act_of payloads.now call.step) (answer_of answer) scratch.now)).cleared < 2 ^ 63 }
        requires sled { (with_entry Sled (past_of self.old.sled) (wrote call.side (act_of payloads.now call.step) (answer_of answer) scratch.now)).cleared < 2 ^ 63 }
        ensures entries { self.new.entries ≡ self.old.entries }
        ensures controller { past_of self.new.controller ≡ with_entry Controller (past_of self.old.controller) (wrote call.side (act_of payloads.now call.step) (answer_of answer) scratch.now) }
        ensures sled { past_of self.new.sled ≡ with_entry Sled (past_of self.old.sled) (wrote call.side (act_of payloads.now call.step) (answer_of answer) scratch.now) }
    {
        // A match, since a past lent as `&mut` would owe a clause on how it comes back, and so be no plainer.
        match call.side {
            Side::Controller => self
                .controller
                .note(call.step, payloads, answer, scratch, blank),
            Side::Sled => self.sled.note(call.step, payloads, answer, scratch, blank),
        }
    }
}
