// Two searches over two graphs by one planner, which shows that the contracts of the calls make a history.
ghost use Rattle.graph.specs.Means.{means};
ghost use Rattle.std.specs.Prelude.{◌≡◌, false, [], ◌∷◌, length, MatchResult};
ghost use Rattle.search.specs.declared.method.Method.TheVariants.{Dijkstra, Astar};
ghost use Rattle.search.specs.Calls.{sought, handed_out};
ghost use Rattle.search.specs.History.{Whole};
ghost use Rattle.planner.specs.Making.{fit};
ghost use Rattle.planner.specs.Pending.{answer_of};
ghost use Rattle.listing.specs.Handing.{given_of};

use crate::lent::Lent;
use crate::make::check;
use crate::planner_type::Planner;
use crate::refusal::MakeRefusal;
use graph::Graph;
use kinds::{CostKind, NodeKind};
use search::{HandOutRefusal, SeekRefusal};

// What two searches and the hand-out after each answered.
#[derive(Clone, Copy)]
pub struct TwoSeeks<C> {
    pub first: Result<Option<C>, SeekRefusal>,
    pub given: Result<Option<usize>, HandOutRefusal>,
    pub second: Result<Option<C>, SeekRefusal>,
    pub given_again: Result<Option<usize>, HandOutRefusal>,
}

// Makes a planner, where one can be made, seeks by dijkstra over one graph and by astar over another, and hands out after
// each: what was answered is a history, and what the law says of histories holds of it.
pub fn plan_twice<
    N: NodeKind,
    C: CostKind,
    G: Graph<Node = N, Cost = C>,
    H: Graph<Node = N, Cost = C>,
>(
    lent: Lent<N, C>,
    graph: &G,
    other: &H,
    start: N,
    out: &mut [N],
    again: &mut [N],
) -> Result<TwoSeeks<C>, MakeRefusal>
    ensures { MatchResult result (λ t. Whole C.kind (sought Dijkstra (means G.Graph graph.now) (G.guesses graph.now) (N.key start) (answer_of C.weight t.first) ∷ handed_out (length out.old) (given_of N.key t.given out.new) ∷ sought Astar (means H.Graph other.now) (H.guesses other.now) (N.key start) (answer_of C.weight t.second) ∷ handed_out (length again.old) (given_of N.key t.given_again again.new) ∷ [])) (λ _. fit lent.entry ≡ false) }
{
    check(lent.sizes())?;
    let mut planner = Planner::make(lent);
    let first = planner.dijkstra(graph, start);
    let given = planner.hand_out(out);
    let second = planner.astar(other, start);
    let given_again = planner.hand_out(again);
    Ok(TwoSeeks {
        first,
        given,
        second,
        given_again,
    })
}
