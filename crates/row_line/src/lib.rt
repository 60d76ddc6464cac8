// A line that holds its blocks in memory of its own, a row of memory for each.
#![tactic(auto)]

pub mod calls;
pub mod row;
pub mod rows;

pub use row::Row;
pub use rows::RowLine;

#[cfg(test)]
mod tests;
