// Fences and tolls over a graph as a list, where a program reads how many there are and in which order.
ghost use Rattle.graph.specs.Means.{means};
ghost use Rattle.std.specs.Prelude.{◌≡◌};
ghost use Rattle.std.specs.List.{list_any};
ghost use Rattle.graph.specs.Answers.{road_of};
ghost use Rattle.graph.specs.Layers.{bars, past_road, laid, laid_guess};
ghost use Rattle.graph.specs.Lawful.{laid_lawful};
ghost use Rattle.graph.specs.Pile.{IsPileOver};

use crate::fault::Fault;
use crate::questions::Graph;
use crate::toll::dearer;
use crate::zones::{Zones, zone_in};
use kinds::{CostKind, NodeKind};

/// A fence that bars zones, or a toll on the roads into zones. The zones are those of the bottom graph.
#[derive(Clone, Copy, PartialEq, Eq, Debug)]
pub enum Layer<C> {
    Fence { barred: Zones },
    Toll { cost: C, charged: Zones },
}

impl<C: CostKind> Layer<C> {
    // Whether it is a fence that bars the zone which the bottom graph has for the node.
    fn bars<G: Graph<Cost = C>>(&self, bottom: &G, node: &G::Node) -> bool
        ensures { result ≡ bars (means G.Graph bottom.now) (G.Node.key node.now) self.now }
    {
        match self {
            Layer::Fence { barred } => zone_in(barred, bottom, node),
            Layer::Toll { .. } => false,
        }
    }

    // A road of this rank, past the layer.
    fn past<G: Graph<Cost = C>>(
        &self,
        bottom: &G,
        rank: u16,
        road: Result<Option<(G::Node, C)>, Fault>,
    ) -> Result<Option<(G::Node, C)>, Fault>
        ensures { road_of G.Node.key C.weight result
            ≡ past_road C.kind C.weight (means G.Graph bottom.now) rank
            (road_of G.Node.key C.weight road) self.now }
    {
        let Some((to, cost)) = road.map_err(Fault::passed_up)? else {
            return Ok(None);
        };
        match self {
            Layer::Fence { barred } if zone_in(barred, bottom, &to) => Ok(None),
            Layer::Toll {
                cost: toll,
                charged,
            } if zone_in(charged, bottom, &to) => { dearer(*toll, rank, to, cost) }
            _ => Ok(Some((to, cost))),
        }
    }
}

/// The bottom graph under the layers, the lowest first: the same as a `Fence` or a `Toll` for each, one over another.
///
/// ```
/// let layers = [
///     Layer::Fence { barred: only(1) },
///     Layer::Toll { cost: Millis { millis: 5 }, charged: only(7) },
/// ];
/// let pile = Layers::new(graph, &layers);
/// ```
#[derive(Drop)]
pub struct Layers<'a, G, C> {
    bottom: G,
    layers: &'a [Layer<C>],
}

impl<'a, C: CostKind, G: Graph<Cost = C>> Layers<'a, G, C> {
    /// The graph under these layers: a pile over it, so that what holds of every pile holds of it.
    #[tactic(auto, using(crate::proofs::LayersPile::laid_pile))]
    pub fn new(bottom: G, layers: &'a [Layer<C>]) -> Layers<'a, G, C>
        ensures over { result.bottom ≡ bottom }
        ensures list { result.layers.now ≡ layers.now }
        ensures pile { IsPileOver C.kind ⟦<Layers<'a, G, C> as Graph>⟧ result G.Graph bottom }
    {
        Layers { bottom, layers }
    }

    // Whether any fence bars the node.
    fn bars(&self, node: &G::Node) -> bool
        ensures { result
            ≡ list_any (bars (means G.Graph self.now.bottom) (G.Node.key node.now))
            self.now.layers.now }
    {
        self.layers
            .iter()
            .any(|layer| layer.bars(&self.bottom, node))
    }
}

impl<'a, C: CostKind, G: Graph<Cost = C>> Graph for Layers<'a, G, C> {
    type Node = G::Node;

    type Cost = C;

    ghost holds = { λ p. (laid C.kind C.weight p.layers.now (means G.Graph p.bottom)).held };

    ghost zones = { λ p. (laid C.kind C.weight p.layers.now (means G.Graph p.bottom)).zone };

    ghost counts = { λ p. (laid C.kind C.weight p.layers.now (means G.Graph p.bottom)).count };

    ghost roads = { λ p. (laid C.kind C.weight p.layers.now (means G.Graph p.bottom)).road };

    ghost guesses = { λ p. laid_guess C.kind C.weight p.layers.now (means G.Graph p.bottom)
        (G.guesses p.bottom) };

    ghost goals = { λ p. (laid C.kind C.weight p.layers.now (means G.Graph p.bottom)).goal };

    ghost lawful = { λ p. laid_lawful C.kind C.weight p.layers.now _ _ (G.lawful p.bottom) };

    #[tactic(auto, using(crate::proofs::LayersPile::laid_held))]
    fn held(&self, node: &G::Node) -> bool {
        !self.bars(node) && self.bottom.held(node)
    }

    #[tactic(auto, using(crate::proofs::LayersPile::laid_zone))]
    fn zone(&self, node: &G::Node) -> u8 {
        if self.bars(node) {
            return 0;
        }
        self.bottom.zone(node)
    }

    #[tactic(auto, using(crate::proofs::LayersPile::laid_count))]
    fn road_count(&self, node: &G::Node) -> u16 {
        if self.bars(node) {
            return 0;
        }
        self.bottom.road_count(node)
    }

    #[tactic(auto, using(crate::proofs::LayersPile::laid_road))]
    fn road(&self, node: &G::Node, rank: u16) -> Result<Option<(G::Node, C)>, Fault> {
        if self.bars(node) {
            return Ok(None);
        }
        let mut road = self.bottom.road(node, rank);
        for layer in self.layers {
            road = layer.past(&self.bottom, rank, road);
        }
        road
    }

    #[tactic(auto, using(crate::proofs::LayersPile::laid_guess_at))]
    fn guess(&self, node: &G::Node) -> C {
        if self.bars(node) {
            return C::zero();
        }
        self.bottom.guess(node)
    }

    #[tactic(auto, using(crate::proofs::LayersPile::laid_goal))]
    fn goal(&self, node: &G::Node) -> bool {
        !self.bars(node) && self.bottom.goal(node)
    }
}
