ghost use Rattle.std.specs.Prelude.{◌≤◌, length};
ghost use Rattle.queue.specs.Contents.{contents, capacity};

use crate::row::Row;
use queue::Queue;

// At most sixteen rows wait, however much memory there is.
#[derive(Drop)]
pub struct RowLine {
    pub(crate) rows: Queue<Row>,
    ghost long: { 16 ≤ capacity rows },
    ghost few: { length (contents rows) ≤ 16 },
}
