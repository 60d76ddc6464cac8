ghost use Rattle.std.specs.Prelude.{◌≡◌};
ghost use Rattle.block.specs.Form.{in_range};
ghost use Rattle.block.specs.Headings.{protocol_of, link_message_of};

use std::fmt;

// What a header says beside the size. Its fields are plain numbers, since a rule of the project refuses one that is out
// of range, under the number 3, where a block is built.
#[derive(Clone, Copy, PartialEq, Eq, Debug, Default)]
pub struct Heading {
    // 0 if the controller began the exchange, 1 if the sled
    pub origin: u8,
    // 0 to 7, named by `Protocol`
    pub protocol: u8,
    // the Type, 0 to 15
    pub kind: u8,
    pub number: u8,
    pub exchange: u16,
}

#[derive(Clone, Copy, PartialEq, Eq, Debug)]
pub enum Protocol {
    LinkService = 0,
    Scsi = 1,
    FastAccess = 2,
    Vendor = 3,
    Reserved = 4,
}

// What link service carries.
#[derive(Clone, Copy, PartialEq, Eq, Debug)]
pub enum LinkMessage {
    Acknowledgement = 0,
    LogIn = 1,
    Pause = 2,
    Other = 3,
}

impl Heading {
    // Whether each field fits its place in a header.
    pub fn is_in_range(self) -> bool
        ensures { result ≡ in_range self }
    {
        self.origin < 2 && self.protocol < 8 && self.kind < 16
    }

    pub fn protocol(self) -> Protocol
        ensures { result ≡ protocol_of self }
    {
        match self.protocol {
            0 => Protocol::LinkService,
            1 => Protocol::Scsi,
            2 => Protocol::FastAccess,
            3 => Protocol::Vendor,
            _ => Protocol::Reserved,
        }
    }

    // Nothing where the protocol is another than link service.
    pub fn link_message(self) -> Option<LinkMessage>
        ensures { result ≡ link_message_of self }
    {
        match (self.protocol, self.kind) {
            (0, 0) => Some(LinkMessage::Acknowledgement),
            (0, 1) => Some(LinkMessage::LogIn),
            (0, 2) => Some(LinkMessage::Pause),
            (0, _) => Some(LinkMessage::Other),
            _ => None,
        }
    }
}

impl fmt::Display for Protocol {
    fn fmt<W: fmt::Write>(&self, f: &mut fmt::Formatter<W>) -> fmt::Result {
        f.write_str(match *self {
            Protocol::LinkService => "link service",
            Protocol::Scsi => "SCSI",
            Protocol::FastAccess => "Fast Access",
            Protocol::Vendor => "vendor",
            Protocol::Reserved => "reserved",
        })
    }
}
