// Making an end.
ghost use Rattle.std.specs.Prelude.{◌≡◌};
ghost use Rattle.rules.specs.Ends.{fresh};
ghost use Rattle.end.specs.Making.{Makes};

use crate::end::End;
use login::Parameters;
use outstanding::Outstanding;
use refusal::{Failure, Layer, Reason};
pub use rules::limits::limits_hold;
use rules::seat::{Flow, Seat, Side, State, Talk};
use std::alloc::Global;

// What an end starts from: its offer is its limits.
fn first_seat(side: Side, limits: Parameters) -> Seat
    ensures { result ≡ (fresh side limits).seat }
{
    Seat {
        side,
        state: State::Initial,
        talk: Talk {
            offer: limits,
            latest: None,
            acked: false,
            far: false,
        },
        flow: Flow {
            next: 1,
            expected: 1,
            taken: 0,
        },
        row: 0,
    }
}

impl End {
    // Only limits in range reach for memory.
    pub fn new(heap: Global, side: Side, limits: Parameters) -> Result<End, Failure>
        ensures { Makes side limits result }
    {
        if !limits_hold(limits) {
            return Err(Failure::Refused(Layer::End.refuses(Reason::LimitOutOfRange)));
        }
        Ok(End {
            seat: first_seat(side, limits),
            outstanding: Outstanding::new(heap)?,
        })
    }
}
