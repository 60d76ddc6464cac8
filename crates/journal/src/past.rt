// What a run has made of one end's records.
use rules::answer::Tag;

#[derive(Drop)]
pub struct Record {
    pub tag: Tag,
    pub payload: Vec<u8>,
}

// The records accepted from the end's user and those handed up to it, oldest first, and how many frames were cleared.
#[derive(Drop)]
pub struct Past {
    pub accepted: Vec<Record>,
    pub handed: Vec<Record>,
    pub cleared: usize,
}
