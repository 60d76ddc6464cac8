ghost use Rattle.std.specs.Prelude.{◌≤◌};

use outstanding::Outstanding;
use rules::seat::Seat;

// An end. Its store, in which the payloads of the outstanding frames stand, is lent at each call.
#[derive(Drop)]
pub struct End {
    pub(crate) seat: Seat,
    pub(crate) outstanding: Outstanding,
    ghost small: { seat.talk.offer.offset ≤ 8 },
}
