// A route out of a planner.
ghost use Rattle.std.specs.Prelude.{length};
ghost use Rattle.search.specs.Calls.{Call, handed_out};
ghost use Rattle.routes.specs.Routes.{shown_of};

use kinds::{CostKind, NodeKind};
use planner::Planner;
use search::HandOutRefusal;
use std::fmt;

/// The nodes of a route, from its start to its goal. It is printed as its nodes, each after a blank.
#[derive(Clone, Copy)]
pub struct Route<'a, N> {
    pub nodes: &'a [N],
}

impl<'a, N: NodeKind> Route<'a, N> {
    /// The next route that the planner hands out, in the first entries of the room; or none, where the planner has handed out all that
    /// its last search found. It is `Planner::hand_out`, which says what of the room stays, with the nodes in place of their number.
    ///
    /// # Errors
    ///
    /// `HandOutRefusal::Short` where the room is shorter than the route, with the number of nodes that it needs. The planner keeps the
    /// route as the next one.
    ///
    /// # Examples
    ///
    /// ```ignore
    /// while let Some(route) = Route::next(&mut desk.planner, desk.out)? {
    ///     println!(rt; "{} stations:{route}", route.nodes.len())?;
    /// }
    /// ```
    pub fn next<C: CostKind>(
        planner: &mut Planner<N, C>,
        room: &'a mut [N],
    ) -> Result<Option<Route<'a, N>>, HandOutRefusal>
        ensures { Call C.kind planner.old
            (handed_out (length room.old) (shown_of N.key result)) planner.new }
    {
        let length = planner.hand_out(room)?;
        Ok(length.map(|length| Route {
            nodes: &room[..length],
        }))
    }
}

// Each node after a blank.
impl<'a, N: fmt::Display> fmt::Display for Route<'a, N> {
    ghost use Rattle.routes.specs.Routes.{printed};

    ghost output = { λ route. printed N.output route.nodes.now };

    fn fmt<W: fmt::Write>(&self, f: &mut fmt::Formatter<W>) -> fmt::Result {
        for node in self.nodes {
            write!(f, " {node}")?;
        }
        Ok(())
    }
}
