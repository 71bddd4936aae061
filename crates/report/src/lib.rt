//! Searches over a chart, and the lines that say what they came to.
#![tactic(auto)]

pub mod lines;

pub use lines::{Found, LINKS, ROWS, run};
