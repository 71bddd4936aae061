//! idastar over the rows of a register: row k has the k-th node of the path.
//!
//! It keeps one path. Within a bound, at first the start's guess, the roads from the end of the path to nodes off it are tried in
//! the order of their weight and the guess at their end, of the same order by rank, and taken back. The least sum of cost and guess
//! that was above the bound is the next bound.
#![tactic(auto)]

mod pass;
mod path;
mod roads;
pub mod tries;
mod turns;

pub use tries::{Tried, Tries};
pub use turns::idastar;
