// The rules of the link: what an end remembers, what each call makes of it, and runs of a whole link. Plain values are
// declared here as types of the code, so that the definitions and the code speak of the same; the definitions stand in
// specs/.
#![tactic(auto)]

pub mod answer;
pub mod call;
pub mod judge;
pub mod limits;
pub mod login_machine;
pub mod seat;
