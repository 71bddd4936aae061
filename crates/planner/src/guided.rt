// A graph with its guess, as a search asks it that goes by the guess.
use graph::{Fault, Graph};

// The graph below, as it is.
#[derive(Drop)]
pub(crate) struct Guided<'a, G> {
    pub(crate) below: &'a G,
}

impl<'a, G: Graph> Graph for Guided<'a, G> {
    type Node = G::Node;

    type Cost = G::Cost;

    ghost holds = { λ u. G.holds u.below.now };

    ghost zones = { λ u. G.zones u.below.now };

    ghost counts = { λ u. G.counts u.below.now };

    ghost roads = { λ u. G.roads u.below.now };

    ghost guesses = { λ u. G.guesses u.below.now };

    ghost goals = { λ u. G.goals u.below.now };

    ghost lawful = { λ u. G.lawful u.below.now };

    fn held(&self, node: &G::Node) -> bool {
        self.below.held(node)
    }

    fn zone(&self, node: &G::Node) -> u8 {
        self.below.zone(node)
    }

    fn road_count(&self, node: &G::Node) -> u16 {
        self.below.road_count(node)
    }

    fn road(&self, node: &G::Node, rank: u16) -> Result<Option<(G::Node, G::Cost)>, Fault> {
        self.below.road(node, rank)
    }

    fn guess(&self, node: &G::Node) -> G::Cost {
        self.below.guess(node)
    }

    fn goal(&self, node: &G::Node) -> bool {
        self.below.goal(node)
    }
}
