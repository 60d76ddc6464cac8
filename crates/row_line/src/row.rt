ghost use Rattle.std.specs.Prelude.{◌≡◌, ◌≤◌, length, replicate};

use line::LONGEST;

// A row of memory, of which the first `len` bytes are a block.
// A length beside the bytes, as a rule of the project has rows. An `ArrayVec` can't be copied as a queue's items are.
#[derive(Clone, Copy)]
pub struct Row {
    pub(crate) len: usize,
    pub(crate) bytes: [u8; LONGEST],
    ghost some: { 1 ≤ len },
    ghost short: { len ≤ 520 },
    ghost whole: { length bytes ≡ 520 },
}

impl Row {
    // For memory that no block was put in yet: no line reads it.
    pub fn blank() -> Row
        ensures { (result.len ≡ 1) × (result.bytes ≡ replicate 520 0) }
    {
        Row {
            len: 1,
            bytes: [0; LONGEST],
        }
    }
}
