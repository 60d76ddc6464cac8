// What an operator asks of the end at a side.
ghost use Rattle.std.specs.Prelude.{◌≡◌, ℕ, List, length};
ghost use Rattle.end.specs.Views.{view};
ghost use Rattle.link.specs.Worlds.{world, end_at, agreed_by};

use crate::link::Link;
use block_check::Check;
use end::end::End;
use line::Line;
use login::Parameters;
use rules::seat::{Side, State};

impl<A: Line, B: Line, K: Check> Link<A, B, K> {
    fn end(&self, side: Side) -> &End
        ensures { (store : List ℕ) × (view result.now store ≡ end_at (world A.Line B.Line self.now) side) }
    {
        match side {
            Side::Controller => &self.controller.end,
            Side::Sled => &self.sled.end,
        }
    }

    pub fn state(&self, side: Side) -> State
        ensures { result ≡ (end_at (world A.Line B.Line self.now) side).seat.state }
    {
        self.end(side).state()
    }

    // What the end has agreed on, once it is logged in.
    pub fn agreed(&self, side: Side) -> Option<Parameters>
        ensures { result ≡ agreed_by (end_at (world A.Line B.Line self.now) side) }
    {
        self.end(side).agreed()
    }

    // How many frames wait for their acknowledgement.
    pub fn outstanding(&self, side: Side) -> usize
        ensures { result ≡ length (end_at (world A.Line B.Line self.now) side).outstanding }
    {
        self.end(side).outstanding()
    }
}
