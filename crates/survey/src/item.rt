// What a survey finds in a capture, in order.
use crate::seen::Message;
use block::status::Status;

// Bytes that belong to no block.
#[derive(Clone, Copy)]
pub struct Skipped {
    pub offset: usize,
    pub length: usize,
    // how many frames were begun there: each is faulty or unfinished
    pub begun: usize,
}

#[derive(Clone, Copy)]
pub struct Carried {
    // where its frame begins in the capture
    pub offset: usize,
    // of the block, unescaped
    pub length: usize,
    // what it says, or the status that a receiver would give to a damaged one
    pub seen: Result<Message, Status>,
}

#[derive(Clone, Copy)]
pub enum Item {
    Gap(Skipped),
    Block(Carried),
}
