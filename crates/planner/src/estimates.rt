// By what the end of a road waits in a heap.
ghost use Rattle.std.specs.Prelude.{◌≡◌};
ghost use Rattle.kinds.specs.Kind.{sum_of};
ghost use Rattle.search.specs.Best.{Estimate, by_sum, by_guess};
ghost use Rattle.planner.specs.Opens.{open_of};

use crate::guided::Guided;
use crate::open::Open;
use graph::{Graph, Unguided};
use kinds::CostKind;

pub(crate) trait Estimates: Graph {
    ghost estimates: { Self → Estimate };

    // The sum of costs at the end of a road, with the guess of the cost ahead, if that fits.
    fn estimate(&self, road: &Open<Self::Node, Self::Cost>) -> Option<Self::Cost>
        ensures { sum_of Self.Cost.weight result ≡ estimates self.now (open_of Self.Node.key Self.Cost.weight road.now) };
}

// By the sum itself: with a guess of zero it always fits, by the law of costs.
impl<'a, G: Graph> Estimates for Unguided<'a, G> {
    ghost estimates = { λ u. by_sum };

    fn estimate(&self, road: &Open<G::Node, G::Cost>) -> Option<G::Cost> {
        road.sum.sum(self.guess(&road.node))
    }
}

// By the sum with the guess.
impl<'a, G: Graph> Estimates for Guided<'a, G> {
    ghost estimates = { λ u. by_guess G.Cost.kind (G.guesses u.below.now) };

    fn estimate(&self, road: &Open<G::Node, G::Cost>) -> Option<G::Cost> {
        road.sum.sum(self.guess(&road.node))
    }
}
