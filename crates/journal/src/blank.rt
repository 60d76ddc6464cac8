// Memory for the payload of one record. It is reserved before a call, so that what was done is always written down.
ghost use Rattle.std.specs.Prelude.{◌≡◌, ◌≤◌, [], length, vec_items, IfOk};

use crate::past::Record;
use rules::answer::Tag;
use std::alloc::{AllocError, Global};

#[derive(Drop)]
pub(crate) struct Blank {
    bytes: Vec<u8>,
    ghost empty: { vec_items bytes ≡ [] },
}

impl Blank {
    ghost use Rattle.journal.specs.Pasts.{record_of, room};

    pub(crate) fn new(heap: Global, size: usize) -> Result<Blank, AllocError>
        ensures { IfOk result (λ b. size ≤ room b) }
    {
        let bytes = Vec::with_capacity(heap, size)?;
        Ok(Blank { bytes })
    }

    // A record with a copy of the bytes for its payload.
    pub(crate) fn record(self, tag: Tag, bytes: &[u8]) -> Record
        requires { length bytes.now ≤ room self }
        ensures { record_of result ≡ record { tag = tag; payload = bytes.now } }
    {
        let mut payload = self.bytes;
        payload.extend_from_slice(bytes).unwrap();
        Record { tag, payload }
    }
}
