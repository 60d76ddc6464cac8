// The summary of a survey.
ghost use Rattle.std.specs.Prelude.{◌≡◌};
ghost use Rattle.survey.specs.Tallies.{more, by_protocol, by_status, with_seen, with_item, tally};

use crate::item::Item;
use crate::seen::Message;
use block::heading::Protocol;
use block::status::Status;

// Well-formed blocks by protocol.
#[derive(Clone, Copy, Default)]
pub struct Protocols {
    pub service: u64,
    pub scsi: u64,
    pub fast: u64,
    pub vendor: u64,
    pub reserved: u64,
}

// Damaged blocks by the status that a receiver would give.
#[derive(Clone, Copy, Default)]
pub struct Statuses {
    pub check: u64,
    pub over: u64,
    pub under: u64,
}

#[derive(Clone, Copy, Default)]
pub struct Tally {
    pub blocks: u64,
    // well-formed blocks in all
    pub formed: u64,
    pub well: Protocols,
    pub damaged: Statuses,
    // bytes that belong to no block, and the frames begun among them
    pub skipped: u64,
    pub faulty: u64,
}

// A count that would pass the largest number stays there.
fn add(count: &mut u64, n: u64)
    ensures { count.new ≡ more count.old n }
{
    *count = count.saturating_add(n);
}

impl Protocols {
    fn note(&mut self, protocol: Protocol)
        ensures { self.new ≡ by_protocol self.old protocol }
    {
        match protocol {
            Protocol::LinkService => add(&mut self.service, 1),
            Protocol::Scsi => add(&mut self.scsi, 1),
            Protocol::FastAccess => add(&mut self.fast, 1),
            Protocol::Vendor => add(&mut self.vendor, 1),
            Protocol::Reserved => add(&mut self.reserved, 1),
        }
    }
}

impl Statuses {
    fn note(&mut self, status: Status)
        ensures { self.new ≡ by_status self.old status }
    {
        match status {
            Status::BadCheck => add(&mut self.check, 1),
            Status::OverLength => add(&mut self.over, 1),
            Status::UnderLength => add(&mut self.under, 1),
            _ => {}
        }
    }
}

impl Tally {
    fn note_block(&mut self, seen: Result<Message, Status>)
        ensures { self.new ≡ with_seen self.old seen }
    {
        add(&mut self.blocks, 1);
        match seen {
            Ok(message) => {
                add(&mut self.formed, 1);
                self.well.note(message.heading.protocol());
            }
            Err(status) => self.damaged.note(status),
        }
    }

    fn note(&mut self, item: Item)
        ensures { self.new ≡ with_item self.old item }
    {
        match item {
            Item::Gap(gap) => {
                add(&mut self.skipped, gap.length as u64);
                add(&mut self.faulty, gap.begun as u64);
            }
            Item::Block(carried) => self.note_block(carried.seen),
        }
    }

    // The summary of a whole survey.
    pub fn of(items: &[Item]) -> Tally
        ensures { result ≡ tally items.now }
    {
        items.iter().fold(Tally::default(), |mut all, item| {
            all.note(*item);
            all
        })
    }
}
