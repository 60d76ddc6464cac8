ghost use Rattle.std.specs.Prelude.{◌<◌, ◌≤◌, length};
ghost use Rattle.queue.specs.Contents.{contents, capacity};

use crate::entry::Entry;
use queue::Queue;

// The k-th oldest frame has its payload in the slot (first + k) % 8 of the store.
#[derive(Drop)]
pub struct Outstanding {
    pub(crate) entries: Queue<Entry>,
    pub(crate) first: usize,
    ghost room: { 8 ≤ capacity entries },
    ghost few: { length (contents entries) ≤ 8 },
    ghost slot: { first < 8 },
}
