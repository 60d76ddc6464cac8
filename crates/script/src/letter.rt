// One step of a script: its letter and its argument, which is handed over in two halves.
ghost use Rattle.std.specs.Prelude.{◌≡◌};
ghost use Rattle.script.specs.Format.{call_of};
ghost use Rattle.script.specs.Format as format;

use block::heading::Protocol;
use rules::answer::Tag;
use rules::call::{Call, Change, Part, Step};
use rules::seat::Side;

// A SCSI record of Type 0; the payload is the beginning of the pattern.
fn sending(side: Side, exchange: u16, size: u16) -> Step
    ensures { result ≡ format.sending side exchange size }
{
    let tag = Tag {
        origin: side.origin(),
        protocol: Protocol::Scsi as u8,
        kind: 0,
        exchange,
    };
    Step::Send(
        tag,
        Part {
            place: 0,
            size: usize::from(size),
        },
    )
}

// The bits of the low half above its lowest byte mean nothing.
fn spoiling(place: u16, low: u16) -> Step
    ensures { result ≡ format.spoiling place low }
{
    let [_, addend] = low.to_be_bytes();
    Step::Spoil(Change {
        place: usize::from(place),
        addend,
    })
}

// A capital means the controller's end or the line towards it, a small letter the sled's.
pub(crate) fn call_of(letter: u8, high: u16, low: u16) -> Option<Call>
    ensures { result ≡ call_of letter high low }
{
    let (side, step) = match char::from(letter) {
        'O' => (Side::Controller, Step::Open),
        'o' => (Side::Sled, Step::Open),
        'S' => (Side::Controller, sending(Side::Controller, high, low)),
        's' => (Side::Sled, sending(Side::Sled, high, low)),
        'P' => (Side::Controller, Step::Poll),
        'p' => (Side::Sled, Step::Poll),
        'T' => (Side::Controller, Step::Timeout),
        't' => (Side::Sled, Step::Timeout),
        'L' => (Side::Controller, Step::Lose),
        'l' => (Side::Sled, Step::Lose),
        'X' => (Side::Controller, spoiling(high, low)),
        'x' => (Side::Sled, spoiling(high, low)),
        _ => return None,
    };
    Some(Call { side, step })
}
