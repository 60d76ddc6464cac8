// The bytes that the payloads of a script are the beginnings of.
ghost use Rattle.std.specs.Prelude.{IfOk};
ghost use Rattle.script.specs.Patterns.{Patterned};

use std::alloc::{AllocError, Global};

// As long as the longest payload that a script can ask for.
const LENGTH: usize = 65_535;

pub fn pattern(heap: Global) -> Result<Vec<u8>, AllocError>
    ensures { IfOk result Patterned }
{
    (0..LENGTH).map(|i| (i % 256) as u8).collect(heap)
}
