// A route with its cost.
ghost use Rattle.graph.specs.Means.{means};
ghost use Rattle.std.specs.Prelude.{◌≢◌, ◌<◌, ◌≤◌, length, Err};
ghost use Rattle.search.specs.declared.refusal.HandOutRefusal.{HandOutRefusal};
ghost use Rattle.search.specs.Taken.{FoundRoute};
ghost use Rattle.routes.specs.declared.refusal.RouteRefusal.TheVariants.{HandOut};
ghost use Rattle.routes.specs.Came.{came_of, Answered, Calls};

use crate::refusal::RouteRefusal;
use crate::route::Route;
use crate::taken::Taken;
use graph::Graph;
use kinds::{CostKind, NodeKind};
use planner::Planner;
use search::Method;

/// A route, and what it costs.
#[derive(Clone, Copy)]
pub struct PricedRoute<'a, N, C> {
    pub cost: C,
    pub route: Route<'a, N>,
}

impl<'a, N: NodeKind, C: CostKind> PricedRoute<'a, N, C> {
    /// Seeks a route from the start by the method, and takes it at once, in the first entries of the room; or answers that no route
    /// begins at the start. It is `Taken::seek`, which says what of the room stays, with the nodes in place of their number.
    ///
    /// # Errors
    ///
    /// Those of `Taken::seek`.
    ///
    /// # Examples
    ///
    /// ```ignore
    /// let start = Station { id: 0 };
    /// match PricedRoute::seek(&mut desk.planner, Method::Astar, &chart, start, desk.out)? {
    ///     Some(PricedRoute { cost, route }) => println!(rt; "{cost}:{route}")?,
    ///     None => println!(rt; "there is no route")?,
    /// }
    /// ```
    pub fn seek<G: Graph<Node = N, Cost = C>>(
        planner: &mut Planner<N, C>,
        method: Method,
        graph: &G,
        start: N,
        room: &'a mut [N],
    ) -> Result<Option<PricedRoute<'a, N, C>>, RouteRefusal>
        ensures answers { Answered
            (FoundRoute C.kind method (means G.Graph graph.now) (G.guesses graph.now) (N.key start))
            (means G.Graph graph.now) (N.key start) (came_of N.key C.weight result) }
        ensures calls { Calls C.kind method (means G.Graph graph.now) (G.guesses graph.now) (N.key start)
            (length room.old) planner.old (came_of N.key C.weight result) planner.new }
        ensures enough { 0 < length room.old → planner.old.capacity.rows ≤ length room.old
            → (r : HandOutRefusal) → result ≢ Err (HandOut r) }
    {
        let Some(Taken { cost, length }) = Taken::seek(planner, method, graph, start, room)? else {
            return Ok(None);
        };
        let route = Route {
            nodes: &room[..length],
        };
        Ok(Some(PricedRoute { cost, route }))
    }
}
