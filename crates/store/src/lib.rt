// A register and a heap over lent slices, for every node kind and every cost kind; they know nothing of graphs.
#![tactic(auto)]

mod chains;
mod deal;
pub mod heap;
mod places;
pub mod register;
pub mod rows;
pub mod slots;
#[cfg(test)]
mod tests;
