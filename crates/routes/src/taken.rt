// What a seek took: the cost of its route, and how much of the room the route fills.
ghost use Rattle.graph.specs.Means.{means};
ghost use Rattle.std.specs.Prelude.{◌≢◌, ◌<◌, ◌≤◌, length, Err};
ghost use Rattle.search.specs.declared.refusal.HandOutRefusal.{HandOutRefusal};
ghost use Rattle.search.specs.Taken.{FoundRoute};
ghost use Rattle.routes.specs.declared.refusal.RouteRefusal.TheVariants.{HandOut};
ghost use Rattle.routes.specs.Came.{Answered, Calls};
ghost use Rattle.routes.specs.Took.{came_in, Within, Untouched};

use crate::refusal::RouteRefusal;
use graph::Graph;
use kinds::{CostKind, NodeKind};
use planner::Planner;
use search::Method;

/// The cost of a route, and its length: how many entries of the room hold its nodes.
#[derive(Clone, Copy)]
pub struct Taken<C> {
    pub cost: C,
    pub length: usize,
}

impl<C: CostKind> Taken<C> {
    /// Seeks a route from the start by the method, and writes it at once into the first entries of the room; or answers that no route
    /// begins at the start. The route is a cheapest one where the bottom graph's guess is true, and by `Method::Dijkstra` always. The
    /// other entries of the room stay, and all of them where there is no route.
    ///
    /// Room for as many nodes as the planner has rows, and for one at least, is enough for any route.
    ///
    /// # Errors
    ///
    /// `RouteRefusal::Seek` where the search is refused, with the number and the values of that refusal, and `RouteRefusal::HandOut`
    /// where the room is shorter than the route, with the number of nodes that it needs. A refusal writes nothing.
    ///
    /// # Examples
    ///
    /// ```ignore
    /// let start = Station { id: 0 };
    /// let taken = Taken::seek(&mut planner, Method::Astar, &chart, start, &mut stations)?;
    /// if let Some(Taken { cost, length }) = taken {
    ///     println!(rt; "{cost}, {length} stations")?;
    /// }
    /// ```
    pub fn seek<N: NodeKind, G: Graph<Node = N, Cost = C>>(
        planner: &mut Planner<N, C>,
        method: Method,
        graph: &G,
        start: N,
        room: &mut [N],
    ) -> Result<Option<Taken<C>>, RouteRefusal>
        ensures answers { Answered
            (FoundRoute C.kind method (means G.Graph graph.now) (G.guesses graph.now) (N.key start))
            (means G.Graph graph.now) (N.key start) (came_in N.key C.weight result room.new) }
        ensures calls { Calls C.kind method (means G.Graph graph.now) (G.guesses graph.now) (N.key start)
            (length room.old) planner.old (came_in N.key C.weight result room.new) planner.new }
        ensures within { Within result (length room.old) }
        ensures rest { Untouched result room.old room.new }
        ensures enough { 0 < length room.old → planner.old.capacity.rows ≤ length room.old
            → (r : HandOutRefusal) → result ≢ Err (HandOut r) }
    {
        let Some(cost) = planner.seek(method, graph, start)? else {
            return Ok(None);
        };
        let Some(length) = planner.hand_out(room)? else {
            // Never so: a search with a cost leaves a route.
            return Ok(None);
        };
        Ok(Some(Taken { cost, length }))
    }
}
