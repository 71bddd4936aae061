// What a graph is: six questions about nodes, and what their answers mean.
#![tactic(auto)]

pub mod fault;
pub mod fence;
pub mod layers;
pub mod piles;
pub mod questions;
pub mod toll;
pub mod unguided;
pub mod zones;

pub use fault::Fault;
pub use fence::Fence;
pub use layers::{Layer, Layers};
pub use questions::Graph;
pub use toll::Toll;
pub use unguided::Unguided;
pub use zones::{ZONES, Zones, is_zone, only};
