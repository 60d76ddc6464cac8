// Blocks: a header of 6 bytes, a payload of 0 to 512 and a check of 1 or 2.
#![tactic(auto)]

pub mod build;
pub mod frame;
pub mod half;
pub mod heading;
pub mod read;
pub mod status;
