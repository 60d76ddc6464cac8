// The journal of a run: the past of each end, and an entry for each call, oldest first.
use crate::entry::Entry;
use crate::past::Past;

#[derive(Drop)]
pub struct Journal {
    pub entries: Vec<Entry>,
    pub controller: Past,
    pub sled: Past,
}
