// What waits in a search over a graph: rows enter it, one by one.
ghost use Rattle.std.specs.Prelude.{◌≡◌, ℕ, ◌<◌, ◌≤◌, Result};
ghost use Rattle.search.specs.declared.refusal.SeekRefusal.{SeekRefusal as Refusal};
ghost use Rattle.search.specs.Roads.{Open as OpenRoad};
ghost use Rattle.planner.specs.Opens.{open_of, left_by};

use crate::open::Open;
use graph::Graph;
use search::SeekRefusal;

pub(crate) trait Waits<G: Graph> {
    // What it stands for in the definition of a search.
    ghost Stood: { Type 0 };

    ghost stands: { Self → Stood };

    // What the entering of a row makes of that, over a graph, by the road that led to the row.
    ghost enters: { G → OpenRoad → ℕ → Stood → Result Stood Refusal };

    // How many rows can wait.
    ghost rows: { Self → ℕ };

    // All that waits is below a number.
    ghost Below: { ℕ → Self → Type 0 };

    // Row `at`, to which a road led, enters.
    fn enter(
        &mut self,
        graph: &G,
        road: &Open<G::Node, G::Cost>,
        at: u16,
    ) -> Result<(), SeekRefusal>
        requires inside { at < rows self.old }
        ensures rows { rows self.new ≡ rows self.old }
        ensures below { (m n : ℕ) → Below m self.old → m ≤ n → at < n → Below n self.new }
        ensures answer { left_by result (stands self.new) ≡ enters graph.now (open_of G.Node.key G.Cost.weight road.now) at (stands self.old) };

    ghost wider: { (m n : ℕ) (w : Self) → m ≤ n → Below m w → Below n w };
}
