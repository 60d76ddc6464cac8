ghost use Rattle.wire_line.specs.Frames.{Kept};

use queue::Queue;

// The frames of `count` blocks. Sixteen fit, since none has more than 1,042 bytes.
// A count beside the bytes: it is no length of theirs, and without it `count` would have to read every frame.
#[derive(Drop)]
pub struct WireLine {
    pub(crate) bytes: Queue<u8>,
    pub(crate) count: usize,
    ghost kept: { Kept bytes count },
}
