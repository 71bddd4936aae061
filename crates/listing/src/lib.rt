// Routes to sinks along the parents of rows, handed out in turn.
#![tactic(auto)]

pub mod hand_out;
mod odometer;
pub mod sinks;
