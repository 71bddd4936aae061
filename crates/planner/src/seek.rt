// A seek by the method that is named.
ghost use Rattle.graph.specs.Means.{means};
ghost use Rattle.search.specs.Calls.{Call, sought};
ghost use Rattle.planner.specs.Pending.{answer_of};

use crate::planner_type::Planner;
use graph::Graph;
use kinds::{CostKind, NodeKind};
use search::{Method, SeekRefusal};

impl<'a, N: NodeKind, C: CostKind> Planner<'a, N, C> {
    /// Seeks by the method: the call of its name.
    ///
    /// # Errors
    ///
    /// Those of that call.
    ///
    /// # Examples
    ///
    /// ```ignore
    /// for method in Method::ALL {
    ///     let cost = planner.seek(method, &graph, start)?;
    /// }
    /// ```
    pub fn seek<G: Graph<Node = N, Cost = C>>(
        &mut self,
        method: Method,
        graph: &G,
        start: N,
    ) -> Result<Option<C>, SeekRefusal>
        ensures { Call C.kind self.old (sought method (means G.Graph graph.now)
            (G.guesses graph.now) (N.key start) (answer_of C.weight result)) self.new }
    {
        match method {
            Method::Dijkstra => self.dijkstra(graph, start),
            Method::Astar => self.astar(graph, start),
            Method::AstarBag => self.astar_bag(graph, start),
            Method::Fringe => self.fringe(graph, start),
            Method::Idastar => self.idastar(graph, start),
        }
    }
}
