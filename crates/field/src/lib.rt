// Fields: maps of cells, costed in milliseconds.
#![tactic(auto)]

pub mod checking;
pub mod grid;
pub mod layout;
pub mod refusal;

pub use checking::{SOLID, check};
pub use grid::Field;
pub use layout::Layout;
pub use refusal::FieldRefusal;
