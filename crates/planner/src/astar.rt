// astar: the least sum of cost and guess comes first.
ghost use Rattle.graph.specs.Means.{means};
ghost use Rattle.search.specs.declared.method.Method.TheVariants.{Astar};
ghost use Rattle.search.specs.Calls.{Call, sought};
ghost use Rattle.planner.specs.Pending.{answer_of};

use crate::best::best;
use crate::guided::Guided;
use crate::planner_type::Planner;
use crate::settle::{drop_all, settle_one};
use graph::Graph;
use kinds::{CostKind, NodeKind};
use search::SeekRefusal;

impl<'a, N: NodeKind, C: CostKind> Planner<'a, N, C> {
    /// Seeks a route from the start by the graph's guess: its cost, or no route. Where the guess of the bottom graph is true, the
    /// route is a lightest one.
    ///
    /// # Errors
    ///
    /// 7 where the start is not held; 8 at a faulty road, 10 where a sum of costs does not fit, 11 where a new node is found and no
    /// row is left. A refused seek leaves nothing to hand out.
    ///
    /// # Examples
    ///
    /// ```ignore
    /// match planner.astar(&graph, start)? {
    ///     Some(cost) => show(cost),
    ///     None => tell("no route begins there"),
    /// }
    /// ```
    pub fn astar<G: Graph<Node = N, Cost = C>>(
        &mut self,
        graph: &G,
        start: N,
    ) -> Result<Option<C>, SeekRefusal>
        ensures { Call C.kind self.old (sought Astar (means G.Graph graph.now)
            (G.guesses graph.now) (N.key start) (answer_of C.weight result)) self.new }
    {
        if !graph.held(&start) {
            drop_all(&mut self.found, &mut self.sinks);
            return Err(SeekRefusal::NotHeld);
        }
        let guided = Guided { below: graph };
        let end = best(&mut self.found, &mut self.heap, &guided, start);
        settle_one(&mut self.found, &mut self.sinks, end)
    }
}
