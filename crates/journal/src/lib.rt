// Whole runs of a link, carried out and written down.
#![tactic(auto)]

mod blank;
pub mod carry;
pub mod entry;
pub mod journal;
pub mod past;
mod step;
mod write;
