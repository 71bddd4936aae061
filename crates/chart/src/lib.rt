// A chart of stations, read out of borrowed bytes: its checking, its making, and its answers as a graph.
#![tactic(auto)]

pub mod borrowed;
pub mod checking;
pub mod questions;
pub mod refusal;
mod words;

pub use borrowed::Chart;
pub use checking::check;
pub use refusal::ChartRefusal;

#[cfg(test)]
mod tests;
