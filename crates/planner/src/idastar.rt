// idastar: paths from the start are tried within a bound, which rises from pass to pass.
ghost use Rattle.graph.specs.Means.{means};
ghost use Rattle.search.specs.declared.method.Method.TheVariants.{Idastar};
ghost use Rattle.search.specs.Calls.{Call, sought};
ghost use Rattle.planner.specs.Pending.{answer_of};

use crate::planner_type::Planner;
use crate::settle::settle_one;
use graph::Graph;
use kinds::{CostKind, NodeKind};
use search::SeekRefusal;

impl<'a, N: NodeKind, C: CostKind> Planner<'a, N, C> {
    /// Seeks a route from the start along one path, within a bound that rises from pass to pass: its cost, or no route. Where the guess
    /// of the bottom graph is true, the route is a lightest one.
    ///
    /// It keeps the nodes of one path alone, and may come to a node many times.
    ///
    /// # Errors
    ///
    /// 7 where the start is not held; 8 at a faulty road, 10 where a sum of costs does not fit, 11 where the path grows and no row is
    /// left. A refused seek leaves nothing to hand out.
    ///
    /// # Examples
    ///
    /// ```ignore
    /// match planner.idastar(&graph, start)? {
    ///     Some(cost) => show(cost),
    ///     None => tell("no route begins there"),
    /// }
    /// ```
    pub fn idastar<G: Graph<Node = N, Cost = C>>(
        &mut self,
        graph: &G,
        start: N,
    ) -> Result<Option<C>, SeekRefusal>
        ensures { Call C.kind self.old (sought Idastar (means G.Graph graph.now)
            (G.guesses graph.now) (N.key start) (answer_of C.weight result)) self.new }
    {
        let end = self.found.find_path(&mut self.tries, graph, start);
        settle_one(&mut self.found, &mut self.sinks, end)
    }
}
