// What a link is made of.
use block_check::Check;
use line::Line;
use login::Parameters;
use refusal::Failure;

// For one end: its limits, the line towards it and its store.
#[derive(Drop)]
pub struct EndParts<L: Line> {
    pub limits: Parameters,
    pub line: L,
    pub store: Vec<u8>,
}

#[derive(Drop)]
pub struct Parts<A: Line, B: Line, K: Check> {
    pub controller: EndParts<A>,
    pub sled: EndParts<B>,
    pub check: K,
}

// Why no link was made, and what it was to be made of, handed back.
#[derive(Drop)]
pub struct NotMade<A: Line, B: Line, K: Check> {
    pub why: Failure,
    pub parts: Parts<A, B, K>,
}
