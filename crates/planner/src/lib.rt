//! A planner over lent memory: it finds cheapest routes by five searches and hands them out.
#![tactic(auto)]

mod astar;
mod astar_bag;
mod bag;
mod best;
mod dijkstra;
mod estimates;
mod found;
mod fringe;
mod goal;
mod guided;
mod hand_out;
mod idastar;
mod kinds_of_waiting;
pub mod lent;
pub mod make;
mod open;
mod passes;
mod path;
pub mod planner_type;
mod ready;
pub mod refusal;
mod roads;
mod seek;
mod settle;
pub mod twice;
mod two_queues;
mod waits;

pub use lent::{Lent, Sizes};
pub use make::{MOST_LINKS, MOST_ROWS, check};
pub use planner_type::Planner;
pub use refusal::MakeRefusal;
pub use twice::{TwoSeeks, plan_twice};
