// What is printed of a step.
ghost use Rattle.std.specs.Prelude.{◌≡◌, ◌-◌, length};
ghost use Rattle.std.specs.Iterator.{at_most};
ghost use Rattle.rules.specs.Steps.{number_of_why};
ghost use Rattle.rehearsal.specs.Rows.{row_of, StandsAt, rows_step};

use journal::entry::Totals;
use journal::journal::Journal;
use refusal::Refusal;
use std::fmt;

// A step of a script: its number from 1, its letter, why it was refused, if it was, and how things stood at both ends
// after it.
#[derive(Clone, Copy)]
pub struct Row {
    pub number: usize,
    pub letter: u8,
    pub refusal: Option<Refusal>,
    pub controller: Totals,
    pub sled: Totals,
}

impl Row {
    // The step at a place, from 0, of a script and of the journal of its run.
    pub fn of(script: &[u8], journal: &Journal, place: usize) -> Option<Row>
        ensures { result ≡ row_of script.now journal.now.entries.items place }
    {
        let letter = *script.get(6..)?.get(place)?;
        let entry = *journal.entries.get(place)?;
        Some(Row {
            number: place + 1,
            letter,
            refusal: entry.answer.refusal(),
            controller: entry.controller,
            sled: entry.sled,
        })
    }

    // The number of its refusal, as it is printed: 0 where there is none.
    pub fn refusal_number(self) -> u8
        ensures { result ≡ number_of_why self.refusal }
    {
        self.refusal.map_or(0, |why| why.number())
    }
}

// The rows of a run, from its first step on.
#[derive(Clone, Copy)]
pub struct Rows<'a> {
    script: &'a [u8],
    journal: &'a Journal,
    place: usize,
}

impl<'a> Rows<'a> {
    pub fn new(script: &'a [u8], journal: &'a Journal) -> Rows<'a>
        ensures { StandsAt script.now journal.now 0 result }
    {
        Rows {
            script,
            journal,
            place: 0,
        }
    }
}

impl<'a> Iterator for Rows<'a> {
    type Item = Row;

    ghost next_gives = { rows_step };

    ghost remaining = { λ s. at_most (length s.journal.now.entries.items - s.place) };

    fn next(&mut self) -> Option<Row> {
        let row = Row::of(self.script, self.journal, self.place)?;
        self.place += 1;
        Some(row)
    }
}

impl fmt::Display for Row {
    fn fmt<W: fmt::Write>(&self, f: &mut fmt::Formatter<W>) -> fmt::Result {
        write!(
            f,
            "{} {} {} {} {} {} {}",
            self.number,
            char::from(self.letter),
            self.refusal_number(),
            self.controller.outstanding,
            self.sled.outstanding,
            self.controller.handed,
            self.sled.handed
        )
    }
}
