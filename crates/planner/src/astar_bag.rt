// astar_bag: as astar, and every lightest route is found.
ghost use Rattle.graph.specs.Means.{means};
ghost use Rattle.search.specs.declared.method.Method.TheVariants.{AstarBag};
ghost use Rattle.search.specs.Calls.{Call, sought};
ghost use Rattle.planner.specs.Pending.{answer_of};

use crate::bag::bag;
use crate::guided::Guided;
use crate::planner_type::Planner;
use crate::settle::{drop_all, settle_all};
use graph::Graph;
use kinds::{CostKind, NodeKind};
use search::SeekRefusal;

impl<'a, N: NodeKind, C: CostKind> Planner<'a, N, C> {
    /// Seeks routes from the start by the graph's guess: their cost, or no route. Hand-outs then give each of them in turn. Where the
    /// guess of the bottom graph is true, they are all the lightest routes, each once.
    ///
    /// # Errors
    ///
    /// 7 where the start is not held; 8 at a faulty road, 9 at an open road that weighs nothing, 10 where a sum of costs does not fit, 11
    /// where a new node is found and no row is left, 12 where a link is needed and all are in lists. A refused seek leaves nothing to
    /// hand out.
    ///
    /// # Examples
    ///
    /// ```ignore
    /// if let Some(cost) = planner.astar_bag(&graph, start)? {
    ///     while let Some(length) = planner.hand_out(&mut nodes)? {
    ///         show(cost, &nodes[..length]);
    ///     }
    /// }
    /// ```
    pub fn astar_bag<G: Graph<Node = N, Cost = C>>(
        &mut self,
        graph: &G,
        start: N,
    ) -> Result<Option<C>, SeekRefusal>
        ensures { Call C.kind self.old (sought AstarBag (means G.Graph graph.now)
            (G.guesses graph.now) (N.key start) (answer_of C.weight result)) self.new }
    {
        if !graph.held(&start) {
            drop_all(&mut self.found, &mut self.sinks);
            return Err(SeekRefusal::NotHeld);
        }
        let guided = Guided { below: graph };
        let end = bag(
            &mut self.found,
            &mut self.heap,
            &mut self.sinks,
            &guided,
            start,
        );
        settle_all(&mut self.found, &mut self.sinks, end)
    }
}
