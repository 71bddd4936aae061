// dijkstra: the least cost comes first.
ghost use Rattle.graph.specs.Means.{means};
ghost use Rattle.search.specs.declared.method.Method.TheVariants.{Dijkstra};
ghost use Rattle.search.specs.Calls.{Call, sought};
ghost use Rattle.planner.specs.Pending.{answer_of};

use crate::best::best;
use crate::planner_type::Planner;
use crate::settle::{drop_all, settle_one};
use graph::{Graph, Unguided};
use kinds::{CostKind, NodeKind};
use search::SeekRefusal;

impl<'a, N: NodeKind, C: CostKind> Planner<'a, N, C> {
    /// Seeks a lightest route from the start: its cost, in the graph's cost kind, or no route.
    ///
    /// # Errors
    ///
    /// 7 where the start is not held; 8 at a faulty road, 10 where a sum of costs does not fit, 11 where a new node is found and no
    /// row is left. A refused seek leaves nothing to hand out.
    ///
    /// # Examples
    ///
    /// ```ignore
    /// match planner.dijkstra(&graph, start)? {
    ///     Some(cost) => show(cost),
    ///     None => tell("no route begins there"),
    /// }
    /// ```
    pub fn dijkstra<G: Graph<Node = N, Cost = C>>(
        &mut self,
        graph: &G,
        start: N,
    ) -> Result<Option<C>, SeekRefusal>
        ensures { Call C.kind self.old (sought Dijkstra (means G.Graph graph.now)
            (G.guesses graph.now) (N.key start) (answer_of C.weight result)) self.new }
    {
        if !graph.held(&start) {
            drop_all(&mut self.found, &mut self.sinks);
            return Err(SeekRefusal::NotHeld);
        }
        let plain = Unguided { below: graph };
        let end = best(&mut self.found, &mut self.heap, &plain, start);
        settle_one(&mut self.found, &mut self.sinks, end)
    }
}
