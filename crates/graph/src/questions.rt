// The questions that a graph answers. Each answers by the graph's meaning every time, and changes nothing.
ghost use Rattle.std.specs.Prelude.{◌≡◌, ℕ, Bool};
ghost use Rattle.graph.specs.Meaning.{Road, meaning, IsLawful};
ghost use Rattle.graph.specs.Answers.{road_of};

use crate::fault::Fault;
use kinds::{CostKind, NodeKind};

/// A graph: six questions about nodes. A program implements it for a type of its own by the six methods, and says in six
/// ghost members what each answers of a key; `lawful` shows that this keeps the laws of graphs (`IsLawful`). Searches call
/// the methods as often as they need, and rely on nothing but these laws.
///
/// A line of stations, at one millisecond a step, that ends at the last:
///
/// ```
/// ghost use Rattle.std.specs.Prelude.{ℕ, ◌+◌, ◌==◌, ◌&&◌, cond, nat_le, nat_lt};
/// ghost use Rattle.std.proofs.Common.{arith};
/// ghost use Rattle.graph.specs.Meaning.{opened, closed};
///
/// #[derive(Drop)]
/// struct Line {
///     last: u32,
/// }
///
/// impl Graph for Line {
///     type Node = Station;
///     type Cost = Millis;
///
///     ghost holds = { λ l k. nat_le k l.last };
///     ghost zones = { λ l k. 0 };
///     ghost counts = { λ l k. cond (nat_lt k l.last) 1 0 };
///     ghost roads = { λ l k rank. cond (nat_lt k l.last && rank == 0) (opened (k + 1) 1) closed };
///     ghost guesses = { λ l k. 0 };
///     ghost goals = { λ l k. k == l.last };
///     ghost lawful = { Prim.grind (arith) };
///
///     fn held(&self, node: &Station) -> bool {
///         node.id <= self.last
///     }
///
///     fn zone(&self, _node: &Station) -> u8 {
///         0
///     }
///
///     fn road_count(&self, node: &Station) -> u16 {
///         if node.id < self.last { 1 } else { 0 }
///     }
///
///     fn road(&self, node: &Station, rank: u16) -> Result<Option<(Station, Millis)>, Fault> {
///         if node.id >= self.last || rank > 0 {
///             return Ok(None);
///         }
///         Ok(Some((Station { id: node.id + 1 }, Millis { millis: 1 })))
///     }
///
///     fn guess(&self, _node: &Station) -> Millis {
///         Millis { millis: 0 }
///     }
///
///     fn goal(&self, node: &Station) -> bool {
///         node.id == self.last
///     }
/// }
/// ```
pub trait Graph {
    type Node: NodeKind;

    type Cost: CostKind;

    // What it says of each key: whether it is held, its zone, how many roads it has, the road of each rank, its guess of the
    // cost ahead, and whether it is a goal.
    ghost holds: { Self → ℕ → Bool };

    ghost zones: { Self → ℕ → ℕ };

    ghost counts: { Self → ℕ → ℕ };

    ghost roads: { Self → ℕ → ℕ → Road };

    ghost guesses: { Self → ℕ → ℕ };

    ghost goals: { Self → ℕ → Bool };

    // That this keeps the laws of graphs.
    ghost lawful: { (g : Self) →
        IsLawful (meaning (holds g) (zones g) (counts g) (roads g) (goals g)) (guesses g) };

    /// Whether it has the node.
    fn held(&self, node: &Self::Node) -> bool
        ensures { result ≡ holds self.now (Self.Node.key node.now) };

    /// The node's zone, below 64; 0 where it does not have the node.
    fn zone(&self, node: &Self::Node) -> u8
        ensures { result ≡ zones self.now (Self.Node.key node.now) };

    /// How many ranks its roads take: ranks from there on are closed.
    fn road_count(&self, node: &Self::Node) -> u16
        ensures { result ≡ counts self.now (Self.Node.key node.now) };

    /// The road of a rank: the node that it leads to and its cost, nothing where it is closed, or the fault that keeps it
    /// from being answered.
    fn road(&self, node: &Self::Node, rank: u16) -> Result<Option<(Self::Node, Self::Cost)>, Fault>
        ensures { road_of Self.Node.key Self.Cost.weight result
            ≡ roads self.now (Self.Node.key node.now) rank };

    /// A guess of what the cheapest route from the node costs; true (`IsTrueGuess`) where no route costs less.
    fn guess(&self, node: &Self::Node) -> Self::Cost
        ensures { Self.Cost.weight result ≡ guesses self.now (Self.Node.key node.now) };

    /// Whether routes end at the node.
    fn goal(&self, node: &Self::Node) -> bool
        ensures { result ≡ goals self.now (Self.Node.key node.now) };
}
