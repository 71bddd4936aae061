// One road after another of a row that was taken, whatever it is that waits.
ghost use Rattle.std.specs.Prelude.{◌≡◌, ◌<◌, length, Some, None};
ghost use Rattle.graph.specs.Means.{means};
ghost use Rattle.search.specs.Rows.{no_row, find};
ghost use Rattle.search.specs.Roads.{arrived, relax as relaxed, follow as followed};
ghost use Rattle.planner.specs.Opens.{open_of, left_by};
ghost use Rattle.planner.specs.Standing.{After, IsServed, capacity_of, state_of};

use crate::found::Found;
use crate::open::Open;
use crate::waits::Waits;
use graph::Graph;
use kinds::{CostKind, NodeKind};
use search::SeekRefusal;
use std::cmp::Ordering;

// A row that was taken, with its node and its cost.
#[derive(Clone, Copy)]
pub(crate) struct Taken<N, C> {
    pub(crate) row: u16,
    pub(crate) node: N,
    pub(crate) cost: C,
}

// The road leads to a node that has no row yet.
#[tactic(auto, using(crate::proofs::Maps::lists))]
fn found_new<N: NodeKind, C: CostKind, G: Graph<Node = N, Cost = C>, W: Waits<G>>(
    found: &mut Found<'_, N, C>,
    waits: &mut W,
    graph: &G,
    road: Open<N, C>,
) -> Result<(), SeekRefusal>
    requires row { road.row < length found.old.rows }
    requires fresh { find (N.key road.node) found.old.rows ≡ None }
    requires served { IsServed W.rows W.Below found.old waits.old }
    ensures served { IsServed W.rows W.Below found.new waits.new }
    ensures after { After found.old found.new }
    ensures answer { left_by result (state_of found.new (W.stands waits.new)) ≡ arrived C.kind (means G.Graph graph.now) (capacity_of found.old) found.old.keeps (W.enters graph.now) None (open_of N.key C.weight road) (state_of found.old (W.stands waits.old)) }
{
    let (row, rank) = (road.row, road.rank);
    if found.is_full() {
        return Err(SeekRefusal::NoRow { row, rank });
    }
    let at = found.len() as u16;
    if !found.add(&road) {
        return Err(SeekRefusal::NoLink { row, rank });
    }
    waits.enter(graph, &road, at)
}

// The road leads to a node that has row `at`.
#[tactic(auto, using(crate::proofs::Maps::lists))]
fn found_again<N: NodeKind, C: CostKind, G: Graph<Node = N, Cost = C>, W: Waits<G>>(
    found: &mut Found<'_, N, C>,
    waits: &mut W,
    graph: &G,
    road: Open<N, C>,
    at: u16,
) -> Result<(), SeekRefusal>
    requires row { road.row < length found.old.rows }
    requires there { find (N.key road.node) found.old.rows ≡ Some at }
    requires served { IsServed W.rows W.Below found.old waits.old }
    ensures served { IsServed W.rows W.Below found.new waits.new }
    ensures after { After found.old found.new }
    ensures answer { left_by result (state_of found.new (W.stands waits.new)) ≡ arrived C.kind (means G.Graph graph.now) (capacity_of found.old) found.old.keeps (W.enters graph.now) (Some at) (open_of N.key C.weight road) (state_of found.old (W.stands waits.old)) }
{
    let (row, rank) = (road.row, road.rank);
    match road.sum.cmp(&found.cost(at)) {
        Ordering::Less => {
            if !found.cheapen(at, &road) {
                return Err(SeekRefusal::NoLink { row, rank });
            }
            waits.enter(graph, &road, at)
        }
        Ordering::Equal => {
            if !found.tie(at, row) {
                return Err(SeekRefusal::NoLink { row, rank });
            }
            Ok(())
        }
        Ordering::Greater => Ok(()),
    }
}

// The node that an open road leads to, at the sum of costs there.
#[tactic(auto, using(crate::proofs::Maps::lists))]
fn arrive<N: NodeKind, C: CostKind, G: Graph<Node = N, Cost = C>, W: Waits<G>>(
    found: &mut Found<'_, N, C>,
    waits: &mut W,
    graph: &G,
    road: Open<N, C>,
) -> Result<(), SeekRefusal>
    requires row { road.row < length found.old.rows }
    requires served { IsServed W.rows W.Below found.old waits.old }
    ensures served { IsServed W.rows W.Below found.new waits.new }
    ensures after { After found.old found.new }
    ensures answer { left_by result (state_of found.new (W.stands waits.new)) ≡ arrived C.kind (means G.Graph graph.now) (capacity_of found.old) found.old.keeps (W.enters graph.now) (find (N.key road.node) found.old.rows) (open_of N.key C.weight road) (state_of found.old (W.stands waits.old)) }
{
    match found.find(&road.node) {
        None => found_new(found, waits, graph, road),
        Some(at) => found_again(found, waits, graph, road, at),
    }
}

// The road of a rank of a row that was taken.
#[tactic(auto, unfolding(search::specs::Roads::relax))]
fn relax<N: NodeKind, C: CostKind, G: Graph<Node = N, Cost = C>, W: Waits<G>>(
    found: &mut Found<'_, N, C>,
    waits: &mut W,
    graph: &G,
    taken: Taken<N, C>,
    rank: u16,
) -> Result<(), SeekRefusal>
    requires row { taken.row < length found.old.rows }
    requires served { IsServed W.rows W.Below found.old waits.old }
    ensures served { IsServed W.rows W.Below found.new waits.new }
    ensures after { After found.old found.new }
    ensures answer { left_by result (state_of found.new (W.stands waits.new)) ≡ relaxed C.kind (means G.Graph graph.now) (capacity_of found.old) found.old.keeps (W.enters graph.now) taken.row (C.weight taken.cost) rank (G.roads graph.now (N.key taken.node) rank) (state_of found.old (W.stands waits.old)) }
{
    let row = taken.row;
    match graph.road(&taken.node, rank) {
        Err(fault) => Err(SeekRefusal::FaultyRoad { row, fault }),
        Ok(None) => Ok(()),
        Ok(Some((node, step))) => {
            if found.is_weightless(step) {
                return Err(SeekRefusal::ZeroWeight { row, rank });
            }
            match taken.cost.sum(step) {
                None => Err(SeekRefusal::NoSum {
                    row,
                    rank: Some(rank),
                }),
                Some(sum) => {
                    let road = Open {
                        row,
                        rank,
                        node,
                        sum,
                    };
                    arrive(found, waits, graph, road)
                }
            }
        }
    }
}

// Follows the roads of a row that was taken, in the order of their ranks.
#[tactic(auto, unfolding(search::specs::Roads::along))]
pub(crate) fn follow<N: NodeKind, C: CostKind, G: Graph<Node = N, Cost = C>, W: Waits<G>>(
    found: &mut Found<'_, N, C>,
    waits: &mut W,
    graph: &G,
    row: u16,
) -> Result<(), SeekRefusal>
    requires row { row < length found.old.rows }
    requires served { IsServed W.rows W.Below found.old waits.old }
    ensures served { IsServed W.rows W.Below found.new waits.new }
    ensures after { After found.old found.new }
    ensures answer { left_by result (state_of found.new (W.stands waits.new)) ≡ followed C.kind (means G.Graph graph.now) (capacity_of found.old) found.old.keeps (W.enters graph.now) row (state_of found.old (W.stands waits.old)) }
{
    let taken = Taken {
        row,
        node: found.node(row),
        cost: found.cost(row),
    };
    let count = graph.road_count(&taken.node);
    for rank in 0..count {
        relax(found, waits, graph, taken, rank)?;
    }
    Ok(())
}
