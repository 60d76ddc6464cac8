// A queue of fixed room for any kind of element, over memory that its maker hands in.
#![tactic(auto)]

pub mod calls;
pub mod queue;

pub use queue::{Full, Queue};
