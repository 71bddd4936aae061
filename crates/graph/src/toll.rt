// A toll over a graph.
ghost use Rattle.graph.specs.Means.{means};
ghost use Rattle.std.specs.Prelude.{◌≡◌};
ghost use Rattle.graph.specs.Answers.{road_of};
ghost use Rattle.graph.specs.Tolled.{dearer, tolled};
ghost use Rattle.graph.specs.Lawful.{tolled_lawful};

use crate::fault::Fault;
use crate::questions::Graph;
use crate::zones::{Zones, zone_in};
use kinds::{CostKind, NodeKind};

/// The graph below with one cost added to every open road that leads into a charged zone. Where the sum does not fit, the
/// road is faulty: `road` refuses with its rank and depth 0. A fault of the graph below comes one deeper.
///
/// ```
/// let toll = Toll::new(graph, Millis { millis: 5 }, only(7));
/// ```
#[derive(Drop)]
pub struct Toll<G, C> {
    below: G,
    cost: C,
    charged: Zones,
}

impl<C: CostKind, G: Graph<Cost = C>> Toll<G, C> {
    /// The graph under a toll of this cost on these zones.
    pub fn new(below: G, cost: C, charged: Zones) -> Toll<G, C>
        ensures over { result.below ≡ below }
        ensures price { result.cost ≡ cost }
        ensures table { result.charged ≡ charged }
    {
        Toll {
            below,
            cost,
            charged,
        }
    }
}

// The open road of a rank to a node with the toll added to its cost: a function of its own, so that a clause pins the sum.
pub(crate) fn dearer<N: NodeKind, C: CostKind>(
    toll: C,
    rank: u16,
    to: N,
    cost: C,
) -> Result<Option<(N, C)>, Fault>
    ensures { road_of N.key C.weight result
        ≡ dearer C.kind (C.weight toll) rank (N.key to) (C.weight cost) }
{
    let sum = cost.sum(toll).ok_or(Fault { rank, depth: 0 })?;
    Ok(Some((to, sum)))
}

impl<C: CostKind, G: Graph<Cost = C>> Graph for Toll<G, C> {
    type Node = G::Node;

    type Cost = C;

    ghost holds = { λ t. (tolled C.kind t.charged (C.weight t.cost) (means G.Graph t.below)).held };

    ghost zones = { λ t. (tolled C.kind t.charged (C.weight t.cost) (means G.Graph t.below)).zone };

    ghost counts = { λ t.
        (tolled C.kind t.charged (C.weight t.cost) (means G.Graph t.below)).count };

    ghost roads = { λ t. (tolled C.kind t.charged (C.weight t.cost) (means G.Graph t.below)).road };

    ghost guesses = { λ t. G.guesses t.below };

    ghost goals = { λ t. (tolled C.kind t.charged (C.weight t.cost) (means G.Graph t.below)).goal };

    ghost lawful = { λ t. tolled_lawful C.kind t.charged (C.weight t.cost) _ _ (G.lawful t.below) };

    fn held(&self, node: &G::Node) -> bool {
        self.below.held(node)
    }

    fn zone(&self, node: &G::Node) -> u8 {
        self.below.zone(node)
    }

    fn road_count(&self, node: &G::Node) -> u16 {
        self.below.road_count(node)
    }

    fn road(&self, node: &G::Node, rank: u16) -> Result<Option<(G::Node, C)>, Fault> {
        let Some((to, cost)) = self.below.road(node, rank).map_err(Fault::passed_up)? else {
            return Ok(None);
        };
        if zone_in(&self.charged, &self.below, &to) {
            return dearer(self.cost, rank, to, cost);
        }
        Ok(Some((to, cost)))
    }

    fn guess(&self, node: &G::Node) -> C {
        self.below.guess(node)
    }

    fn goal(&self, node: &G::Node) -> bool {
        self.below.goal(node)
    }
}
