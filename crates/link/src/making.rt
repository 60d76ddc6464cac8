// Making a link.
ghost use Rattle.std.specs.Prelude.{◌≡◌, IfOk};
ghost use Rattle.link.specs.Worlds.{world};
ghost use Rattle.link.specs.Making.{EndsMade, Makes, Fresh, FromHere};

use crate::link::Link;
use crate::node::Node;
use crate::parts::{EndParts, NotMade, Parts};
use block_check::Check;
use end::end::End;
use line::Line;
use refusal::{Failure, Layer, Reason};
use rules::limits::limits_hold;
use rules::seat::Side;
use std::alloc::Global;

impl<L: Line> EndParts<L> {
    fn with(self, end: End) -> Node<L>
        ensures { result ≡ record { end = end; line = self.line; store = self.store } }
    {
        Node {
            end,
            line: self.line,
            store: self.store,
        }
    }
}

impl<A: Line, B: Line, K: Check> Parts<A, B, K> {
    // The stores are tested first, then the limits; only parts that serve reach for memory.
    #[tactic(auto, using(crate::proofs::Fresh::made_of_fit))]
    fn ends(&self, heap: Global) -> Result<(End, End), Failure>
        ensures { EndsMade A.Line B.Line self.now result }
    {
        if self.controller.store.len() < 4096 || self.sled.store.len() < 4096 {
            return Err(Layer::End.refuses(Reason::TooShort).into());
        }
        if !limits_hold(self.controller.limits) || !limits_hold(self.sled.limits) {
            return Err(Layer::End.refuses(Reason::LimitOutOfRange).into());
        }
        let near = End::new(heap, Side::Controller, self.controller.limits)?;
        let far = End::new(heap, Side::Sled, self.sled.limits)?;
        Ok((near, far))
    }
}

impl<A: Line, B: Line, K: Check> Link<A, B, K> {
    pub fn new(heap: Global, parts: Parts<A, B, K>) -> Result<Link<A, B, K>, NotMade<A, B, K>>
        ensures made { Makes A.Line B.Line parts result }
        ensures law { IfOk result (λ l. Fresh A.Line B.Line parts → FromHere K.Check.code A.Line B.Line parts (world A.Line B.Line l)) }
    {
        let (near, far) = match parts.ends(heap) {
            Ok(ends) => ends,
            Err(why) => return Err(NotMade { why, parts }),
        };
        let Parts {
            controller,
            sled,
            check,
        } = parts;
        Ok(Link {
            controller: controller.with(near),
            sled: sled.with(far),
            check,
        })
    }
}
