// An end with the line towards it and its store.
use end::end::End;
use line::Line;

#[derive(Drop)]
pub struct Node<L: Line> {
    pub(crate) end: End,
    pub(crate) line: L,
    pub(crate) store: Vec<u8>,
}
