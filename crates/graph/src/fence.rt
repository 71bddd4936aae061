// A fence over a graph.
ghost use Rattle.graph.specs.Means.{means};
ghost use Rattle.std.specs.Prelude.{◌≡◌};
ghost use Rattle.graph.specs.Zones.{in_table};
ghost use Rattle.graph.specs.Fenced.{fenced, fenced_guess};
ghost use Rattle.graph.specs.Lawful.{fenced_lawful};

use crate::fault::Fault;
use crate::questions::Graph;
use crate::zones::{Zones, zone_in};
use kinds::{CostKind, NodeKind};

/// The graph below without the nodes whose zone is barred, and without the roads to them. A barred node is not held: it
/// has zone 0, no roads, guess zero, and is no goal. A fault of the graph below comes one deeper.
///
/// ```
/// let fence = Fence::new(graph, only(7));
/// ```
#[derive(Drop)]
pub struct Fence<G> {
    below: G,
    barred: Zones,
}

impl<G: Graph> Fence<G> {
    /// The graph under a fence that bars these zones.
    pub fn new(below: G, barred: Zones) -> Fence<G>
        ensures over { result.below ≡ below }
        ensures table { result.barred ≡ barred }
    {
        Fence { below, barred }
    }

    // Whether the node's zone is barred.
    fn bars(&self, node: &G::Node) -> bool
        ensures { result
            ≡ in_table self.now.barred (means G.Graph self.now.below) (G.Node.key node.now) }
    {
        zone_in(&self.barred, &self.below, node)
    }
}

impl<G: Graph> Graph for Fence<G> {
    type Node = G::Node;

    type Cost = G::Cost;

    ghost holds = { λ f. (fenced f.barred (means G.Graph f.below)).held };

    ghost zones = { λ f. (fenced f.barred (means G.Graph f.below)).zone };

    ghost counts = { λ f. (fenced f.barred (means G.Graph f.below)).count };

    ghost roads = { λ f. (fenced f.barred (means G.Graph f.below)).road };

    ghost guesses = { λ f. fenced_guess f.barred (means G.Graph f.below) (G.guesses f.below) };

    ghost goals = { λ f. (fenced f.barred (means G.Graph f.below)).goal };

    ghost lawful = { λ f. fenced_lawful f.barred _ _ (G.lawful f.below) };

    fn held(&self, node: &G::Node) -> bool {
        !self.bars(node) && self.below.held(node)
    }

    fn zone(&self, node: &G::Node) -> u8 {
        // Asked once, since each fence of a pile asks the graph below.
        let zone = self.below.zone(node);
        if self.barred[zone as usize] {
            return 0;
        }
        zone
    }

    fn road_count(&self, node: &G::Node) -> u16 {
        if self.bars(node) {
            return 0;
        }
        self.below.road_count(node)
    }

    fn road(&self, node: &G::Node, rank: u16) -> Result<Option<(G::Node, G::Cost)>, Fault> {
        if self.bars(node) {
            return Ok(None);
        }
        let open = self.below.road(node, rank).map_err(Fault::passed_up)?;
        Ok(open.filter(|(to, _)| !self.bars(to)))
    }

    fn guess(&self, node: &G::Node) -> G::Cost {
        if self.bars(node) {
            return G::Cost::zero();
        }
        self.below.guess(node)
    }

    fn goal(&self, node: &G::Node) -> bool {
        !self.bars(node) && self.below.goal(node)
    }
}
