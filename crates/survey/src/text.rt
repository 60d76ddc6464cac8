// A survey in words: one line an item, and the summary.
use crate::item::Item;
use crate::seen::{Message, Service};
use crate::tally::Tally;
use block::heading::LinkMessage;
use std::fmt;

impl fmt::Display for Message {
    fn fmt<W: fmt::Write>(&self, f: &mut fmt::Formatter<W>) -> fmt::Result {
        let heading = self.heading;
        // Origin's two words stand here alone; an enum with a definition of its own would be no plainer.
        let origin = if heading.origin == 0 {
            "controller"
        } else {
            "sled"
        };
        write!(f, "{origin}, {}", heading.protocol())?;
        match heading.link_message() {
            Some(LinkMessage::Acknowledgement) => f.write_str(" acknowledgement")?,
            Some(LinkMessage::LogIn) => f.write_str(" log-in")?,
            _ => write!(f, " type {:X}h", heading.kind)?,
        }
        write!(
            f,
            "{}, number {}, exchange {}, size {}",
            self.service, heading.number, heading.exchange, self.size
        )
    }
}

impl fmt::Display for Service {
    fn fmt<W: fmt::Write>(&self, f: &mut fmt::Formatter<W>) -> fmt::Result {
        match *self {
            Service::Acknowledgement(Ok(status)) => write!(f, " {status}"),
            Service::Acknowledgement(Err(unknown)) => write!(f, " {unknown}"),
            Service::LogInOffer(offer) => write!(
                f,
                " accept {} offset {} payload {} baud {}",
                u8::from(offer.accept),
                offer.parameters.offset,
                offer.parameters.payload,
                offer.parameters.baud
            ),
            Service::Other => Ok(()),
        }
    }
}

impl fmt::Display for Item {
    fn fmt<W: fmt::Write>(&self, f: &mut fmt::Formatter<W>) -> fmt::Result {
        match *self {
            Item::Gap(gap) => write!(
                f,
                "{:>6} {:>4}  skipped, faulty frames {}",
                gap.offset, gap.length, gap.begun
            ),
            Item::Block(carried) => {
                write!(f, "{:>6} {:>4}  ", carried.offset, carried.length)?;
                match carried.seen {
                    Ok(message) => write!(f, "{message}"),
                    Err(status) => write!(f, "{status}"),
                }
            }
        }
    }
}

impl fmt::Display for Tally {
    fn fmt<W: fmt::Write>(&self, f: &mut fmt::Formatter<W>) -> fmt::Result {
        writeln!(f, "blocks {}, well-formed {}", self.blocks, self.formed)?;
        writeln!(
            f,
            "by protocol: link service {}, SCSI {}, Fast Access {}, vendor {}, reserved {}",
            self.well.service, self.well.scsi, self.well.fast, self.well.vendor, self.well.reserved
        )?;
        writeln!(
            f,
            "by status: 01h bad check {}, 02h over-length {}, 03h under-length {}",
            self.damaged.check, self.damaged.over, self.damaged.under
        )?;
        write!(
            f,
            "bytes skipped {}, faulty frames {}",
            self.skipped, self.faulty
        )
    }
}
