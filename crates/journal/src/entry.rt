// What a journal holds of each call.
use rules::call::Answer;

// After a call: how many frames an end has outstanding, and how many records were handed up to it so far.
#[derive(Clone, Copy)]
pub struct Totals {
    pub outstanding: usize,
    pub handed: usize,
}

#[derive(Clone, Copy)]
pub struct Entry {
    pub answer: Answer,
    pub controller: Totals,
    pub sled: Totals,
}
