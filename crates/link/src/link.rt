// The link: each end with the line towards it. The line from an end is the line towards the other.
use crate::node::Node;
use block_check::Check;
use line::Line;

#[derive(Drop)]
pub struct Link<A: Line, B: Line, K: Check> {
    pub(crate) controller: Node<A>,
    pub(crate) sled: Node<B>,
    pub(crate) check: K,
}
