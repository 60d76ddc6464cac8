// What one block of a capture says.
ghost use Rattle.std.specs.Prelude.{◌≡◌};
ghost use Rattle.survey.specs.Seeing.{service_of, seen};

use block::frame::Frame;
use block::heading::{Heading, LinkMessage};
use block::read::read;
use block::status::{Status, UnknownStatus};
use block_check::Check;
use login::LogIn;

// What link service carries, where the payload has the form that its type calls for.
#[derive(Clone, Copy)]
pub enum Service {
    // with the status, or with a code that no status has
    Acknowledgement(Result<Status, UnknownStatus>),
    LogInOffer(LogIn),
    Other,
}

// What a well-formed block says.
#[derive(Clone, Copy)]
pub struct Message {
    pub heading: Heading,
    pub size: usize,
    pub service: Service,
}

fn service_in(frame: Frame<'_>) -> Service
    ensures { result ≡ service_of frame.entry.heading.protocol frame.entry.heading.kind frame.entry.payload.now }
{
    match (frame.heading.link_message(), frame.payload) {
        (Some(LinkMessage::Acknowledgement), [code]) => {
            Service::Acknowledgement(Status::try_from(*code))
        }
        (Some(LinkMessage::LogIn), payload) => {
            LogIn::decode(payload).map_or(Service::Other, Service::LogInOffer)
        }
        _ => Service::Other,
    }
}

// Of a damaged block the status that a receiver would give.
pub fn see<K: Check>(block: &[u8]) -> Result<Message, Status>
    ensures { result ≡ seen K.Check.code.width K.Check.code.value block.now }
{
    let frame = read::<K>(block)?;
    Ok(Message {
        heading: frame.heading,
        size: frame.payload.len(),
        service: service_in(frame),
    })
}
