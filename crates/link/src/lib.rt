// A link: two ends, the line towards each, and their stores.
#![tactic(auto)]

pub mod ask;
mod calls;
pub mod link;
pub mod making;
pub mod node;
pub mod parts;
pub mod sides;
