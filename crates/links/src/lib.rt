// The parents of rows over lent memory, for rows that are numbers: one of each row, or lists in links.
#![tactic(auto)]

mod edits;
pub mod lists;
pub mod parents;
#[cfg(test)]
mod tests;
