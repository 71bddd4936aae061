// The next route of the last seek.
ghost use Rattle.std.specs.Prelude.{length};
ghost use Rattle.search.specs.Calls.{Call, handed_out};
ghost use Rattle.listing.specs.Handing.{given_of, Within, Untouched};

use crate::planner_type::Planner;
use kinds::{CostKind, NodeKind};
use search::HandOutRefusal;

impl<'a, N: NodeKind, C: CostKind> Planner<'a, N, C> {
    /// Writes the nodes of the next route into the first entries, that of the start first, and answers how many there are; or answers
    /// that no route is left. The other entries stay.
    ///
    /// After astar_bag the route to the goal taken last comes first, and of one goal that by the parent added last, where the choice
    /// nearest the start changes first. After any other seek there is one route.
    ///
    /// # Errors
    ///
    /// 13 where the output is shorter than the route, with the length that it needs. A refusal writes nothing and keeps the route as
    /// the next one.
    ///
    /// # Examples
    ///
    /// ```ignore
    /// let length = planner.hand_out(&mut nodes)?;
    /// ```
    pub fn hand_out(&mut self, out: &mut [N]) -> Result<Option<usize>, HandOutRefusal>
        ensures call { Call C.kind self.old (handed_out (length out.old) (given_of N.key result out.new)) self.new }
        ensures within { Within result (length out.old) }
        ensures rest { Untouched result out.old out.new }
    {
        self.found.hand_out(&mut self.sinks, out)
    }
}
