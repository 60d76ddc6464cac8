// Scripts carried out on a link over any two lines and any check, and what is printed of each step.
#![tactic(auto)]

pub mod rehearse;
pub mod row;
