// A graph without its guess.
ghost use Rattle.graph.specs.Means.{means};
ghost use Rattle.std.specs.Prelude.{ℕ};
ghost use Rattle.graph.specs.Lawful.{unguided_lawful};

use crate::fault::Fault;
use crate::questions::Graph;
use kinds::{CostKind, NodeKind};

/// The graph below, with zero as the guess everywhere.
#[derive(Drop)]
pub struct Unguided<'a, G> {
    pub below: &'a G,
}

impl<'a, G: Graph> Graph for Unguided<'a, G> {
    type Node = G::Node;

    type Cost = G::Cost;

    ghost holds = { λ u. (means G.Graph u.below.now).held };

    ghost zones = { λ u. (means G.Graph u.below.now).zone };

    ghost counts = { λ u. (means G.Graph u.below.now).count };

    ghost roads = { λ u. (means G.Graph u.below.now).road };

    ghost guesses = { λ u k. 0 };

    ghost goals = { λ u. (means G.Graph u.below.now).goal };

    ghost lawful = { λ u. unguided_lawful _ (G.guesses u.below.now) (G.lawful u.below.now) };

    fn held(&self, node: &G::Node) -> bool {
        self.below.held(node)
    }

    fn zone(&self, node: &G::Node) -> u8 {
        self.below.zone(node)
    }

    fn road_count(&self, node: &G::Node) -> u16 {
        self.below.road_count(node)
    }

    fn road(&self, node: &G::Node, rank: u16) -> Result<Option<(G::Node, G::Cost)>, Fault> {
        self.below.road(node, rank)
    }

    fn guess(&self, _node: &G::Node) -> G::Cost {
        G::Cost::zero()
    }

    fn goal(&self, node: &G::Node) -> bool {
        self.below.goal(node)
    }
}
