// A block that was read, or that is to be built: its payload is a part of other bytes, as those that it was read from.
ghost use Rattle.std.specs.Prelude.{◌≡◌, ◌≤◌, true, length};
ghost use Rattle.block.specs.Form.{in_range};

use crate::heading::Heading;

#[derive(Clone, Copy)]
pub struct Frame<'a> {
    pub heading: Heading,
    pub payload: &'a [u8],
    ghost fields: { in_range heading ≡ true },
    ghost short: { length payload.now ≤ 512 },
}
