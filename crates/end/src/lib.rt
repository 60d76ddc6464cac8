// An end of a link: its calls, over any lines and any check.
#![tactic(auto)]

pub mod ask;
mod emit;
pub mod end;
mod hear;
pub mod new;
pub mod open;
pub mod poll;
pub mod send;
pub mod spoil;
pub mod timeout;
