// What a node kind and a cost kind are, with two of each.
#![tactic(auto)]

pub mod cell;
pub mod cost_kind;
pub mod millis;
pub mod node_kind;
pub mod station;
pub mod trims;

pub use cell::Cell;
pub use cost_kind::CostKind;
pub use millis::Millis;
pub use node_kind::NodeKind;
pub use station::Station;
pub use trims::Trims;
