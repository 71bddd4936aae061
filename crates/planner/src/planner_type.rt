// The planner's type, with what every call keeps.
use crate::found::Found;
use crate::two_queues::TwoQueues;
use deepening::Tries;
use kinds::{CostKind, NodeKind};
use listing::sinks::Sinks;
use std::marker::Model;
use store::heap::Heap;

/// A planner over lent memory. Each seek drops what the one before found; hand-outs then give its routes one by one.
///
/// Contracts see it as what it holds between two calls: its capacity, and the routes that are still to be handed out.
///
/// # Examples
///
/// ```ignore
/// let cost = planner.astar(&graph, start)?;         // a cost, or no route, or a refusal with its number and values
/// while let Some(length) = planner.hand_out(&mut nodes)? {
///     show(&nodes[..length]);
/// }
/// ```
#[derive(Drop)]
pub struct Planner<'a, N: NodeKind, C: CostKind> {
    pub(crate) found: Found<'a, N, C>,
    pub(crate) sinks: Sinks<'a>,
    pub(crate) heap: Heap<'a, C>,
    pub(crate) queues: TwoQueues<'a, C>,
    pub(crate) tries: Tries<'a>,
}

impl<'a, N: NodeKind, C: CostKind> Model for Planner<'a, N, C> {
    ghost use Rattle.search.specs.Calls.{Held};
    ghost use Rattle.planner.specs.Pending.{held_of, IsPlanner};

    ghost Value = { Held };

    ghost view = { λ p. held_of p.found p.sinks };

    ghost invariant = { λ p. IsPlanner p.found p.sinks p.heap.rows p.queues.queues.rows p.tries.room };
}
