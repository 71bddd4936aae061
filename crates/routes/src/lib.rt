//! Routes as values: memory for a planner, a planner at its desk, and a search whose route is taken at once.
#![tactic(auto)]

pub mod desk;
pub mod memory;
pub mod priced_route;
pub mod refusal;
pub mod route;
pub mod taken;

pub use desk::Desk;
pub use memory::Memory;
pub use priced_route::PricedRoute;
pub use refusal::RouteRefusal;
pub use route::Route;
pub use taken::Taken;

#[cfg(test)]
mod tests;
