// Roads to try, and their order.
ghost use Rattle.std.specs.Prelude.{◌≡◌};
ghost use Rattle.graph.specs.Means.{means};
ghost use Rattle.search.specs.Scan.{due, better, tried_road};
ghost use Rattle.deepening.specs.Steps.{tried_last};
ghost use Rattle.deepening.specs.Views.{try_of, best_of, left_of};

use crate::tries::Tried;
use graph::Graph;
use kinds::{CostKind, NodeKind};

// An open road: its rank, where it leads, its weight, and that with the guess there.
#[derive(Clone, Copy)]
pub struct Road<N, C> {
    pub rank: u16,
    pub node: N,
    pub weight: C,
    pub order: C,
}

// Whether the road comes after the one tried last.
pub(crate) fn is_due<N: NodeKind, C: CostKind>(tried: Option<Road<N, C>>, road: Road<N, C>) -> bool
    ensures { result ≡ due (best_of N.key C.weight tried) (try_of N.key C.weight road) }
{
    match tried {
        None => true,
        Some(last) => last.order < road.order
            || (last.order == road.order && last.rank < road.rank),
    }
}

// The better of the best so far and a road of higher rank.
pub(crate) fn better_of<N: NodeKind, C: CostKind>(
    best: Option<Road<N, C>>,
    road: Road<N, C>,
) -> Option<Road<N, C>>
    ensures { best_of N.key C.weight result
        ≡ better (best_of N.key C.weight best) (try_of N.key C.weight road) }
{
    match best {
        None => Some(road),
        Some(so_far) => {
            if road.order < so_far.order {
                Some(road)
            } else {
                Some(so_far)
            }
        }
    }
}

// The road of a rank, if it is open and its weight has a sum with the guess.
pub(crate) fn road_of_rank<N: NodeKind, C: CostKind, G: Graph<Node = N, Cost = C>>(
    graph: &G,
    node: N,
    rank: u16,
) -> Option<Road<N, C>>
    ensures { best_of N.key C.weight result
        ≡ tried_road C.kind (means G.Graph graph.now) (G.guesses graph.now)
        rank ((means G.Graph graph.now).road (N.key node) rank) }
{
    let Ok(Some((to, weight))) = graph.road(&node, rank) else {
        return None;
    };
    let order = weight.sum(graph.guess(&to))?;
    Some(Road {
        rank,
        node: to,
        weight,
        order,
    })
}

// The road that was tried last.
pub(crate) fn last_road<N: NodeKind, C: CostKind, G: Graph<Node = N, Cost = C>>(
    graph: &G,
    node: N,
    tried: Tried,
) -> Option<Road<N, C>>
    ensures { best_of N.key C.weight result
        ≡ tried_last C.kind (means G.Graph graph.now) (G.guesses graph.now)
        (N.key node) (left_of tried) }
{
    match tried {
        Tried::Nothing => None,
        Tried::UpTo(rank) => road_of_rank(graph, node, rank),
    }
}
