// astar_bag: the first out of the heap is taken, up to one past the cost of the goals.
ghost use Rattle.std.specs.Prelude.{◌≡◌, ◌<◌, ◌≤◌, true, Some, None, length, option_map, if◌then◌else◌, slice_index_or};
ghost use Rattle.graph.specs.Means.{means};
ghost use Rattle.search.specs.Roads.{all};
ghost use Rattle.search.specs.Queue.{first_out};
ghost use Rattle.search.specs.Rows.{no_row};
ghost use Rattle.search.specs.Bag.{is_past, joined, bag as turns, begin as begun};
ghost use Rattle.search.specs.Ends.{Ends};
ghost use Rattle.planner.specs.Standing.{After, HasMemoryOf, capacity_of};
ghost use Rattle.planner.specs.Entries.{entries_of, IsHeapOf};
ghost use Rattle.planner.specs.Bags.{bag_of, bag_turned, bag_end, IsLastIn};
ghost use Rattle.planner.specs.Pending.{BagEndsWell};

use crate::found::Found;
use crate::guided::Guided;
use crate::roads::follow;
use graph::Graph;
use kinds::{CostKind, NodeKind};
use links::parents::Keeps;
use listing::sinks::Sinks;
use search::SeekRefusal;
use std::ops::ControlFlow;
use store::heap::Heap;
use store::slots::Waiting;

// Whether an estimate is past the cost of the last goal, if there is one.
fn is_past<C: CostKind>(cost: Option<C>, estimate: C) -> bool
    ensures { result ≡ is_past (option_map C.weight cost) (C.weight estimate) }
{
    match cost {
        None => false,
        Some(cost) => cost < estimate,
    }
}

// Takes note of a row that was taken: a goal is a sink, and its cost is that of the search.
fn noted<N: NodeKind, C: CostKind, G: Graph<Node = N, Cost = C>>(
    found: &Found<'_, N, C>,
    sinks: &mut Sinks,
    graph: &G,
    row: u16,
    cost: Option<C>,
) -> Option<C>
    requires inside { row < length found.now.rows }
    requires place { row < sinks.old.places }
    ensures places { sinks.new.places ≡ sinks.old.places }
    ensures sinks { sinks.new.sinks ≡ (if G.goals graph.now (slice_index_or found.now.rows row no_row).key then joined row sinks.old.sinks else sinks.old.sinks) }
    ensures cost { option_map C.weight result ≡ (if G.goals graph.now (slice_index_or found.now.rows row no_row).key then Some (slice_index_or found.now.rows row no_row).cost else option_map C.weight cost) }
{
    if graph.goal(&found.node(row)) {
        sinks.join(row);
        return Some(found.cost(row));
    }
    cost
}

// One turn, by the cost of the last goal so far. Takes the first out: one past that cost ends the search, as does an empty heap; another
// is a sink if it is a goal, and its roads are followed. Answers the cost of the last goal.
#[tactic(auto, using(crate::proofs::Maps::lists, crate::proofs::Entries::entries), unfolding(search::specs::Bag::bag, search::specs::Bag::taken))]
fn turn<N: NodeKind, C: CostKind, G: Graph<Node = N, Cost = C>>(
    found: &mut Found<'_, N, C>,
    heap: &mut Heap<'_, C>,
    sinks: &mut Sinks,
    graph: &Guided<'_, G>,
    cost: Option<C>,
) -> Result<ControlFlow<(), Option<C>>, SeekRefusal>
    requires all { found.old.keeps ≡ all }
    requires served { IsHeapOf found.old heap.old }
    requires places { found.old.room ≤ sinks.old.places }
    ensures served { IsHeapOf found.new heap.new }
    ensures after { After found.old found.new }
    ensures places { sinks.new.places ≡ sinks.old.places }
    ensures ends { IsLastIn found.old sinks.old.sinks found.new sinks.new.sinks result }
    ensures answer { bag_turned C.weight cost result found.new heap.new sinks.new.sinks ≡ turns C.kind (means G.Graph graph.now.below.now) (G.guesses graph.now.below.now) (capacity_of found.old) (first_out (entries_of C.weight heap.old)) (bag_of C.weight found.old heap.old sinks.old.sinks cost) }
{
    let Some(Waiting { row, estimate, .. }) = heap.pop() else {
        return Ok(ControlFlow::Break(()));
    };
    if is_past(cost, estimate) {
        return Ok(ControlFlow::Break(()));
    }
    let cost = noted(found, sinks, graph, row, cost);
    follow(found, heap, graph, row)?;
    Ok(ControlFlow::Continue(cost))
}

// Turns until the search ends: the cost of the last goal.
#[tactic(auto, using(search::specs::Ends::last, search::specs::Ends::next, search::proofs::HeapEnds::bag_falls))]
fn run<N: NodeKind, C: CostKind, G: Graph<Node = N, Cost = C>>(
    found: &mut Found<'_, N, C>,
    heap: &mut Heap<'_, C>,
    sinks: &mut Sinks,
    graph: &Guided<'_, G>,
    start: N,
) -> Result<Option<C>, SeekRefusal>
    requires held { G.holds graph.now.below.now (N.key start) ≡ true }
    requires all { found.old.keeps ≡ all }
    requires served { IsHeapOf found.old heap.old }
    requires places { found.old.room ≤ sinks.old.places }
    requires begun { bag_of C.weight found.old heap.old sinks.old.sinks None ≡ begun (N.key start) }
    ensures served { IsHeapOf found.new heap.new }
    ensures after { After found.old found.new }
    ensures places { sinks.new.places ≡ sinks.old.places }
    ensures well { BagEndsWell found.new.rows sinks.new.sinks result }
    ensures answer { Ends (λ b. turns C.kind (means G.Graph graph.now.below.now) (G.guesses graph.now.below.now) (capacity_of found.old) (first_out b.search.waits) b) (begun (N.key start)) (bag_end C.weight result found.new.rows sinks.new.sinks) }
{
    let mut cost = None;
    loop {
        match turn(found, heap, sinks, graph, cost)? {
            ControlFlow::Break(()) => return Ok(cost),
            ControlFlow::Continue(latest) => cost = latest,
        }
    }
}

// The search from a start that is held: the cost of the goals that are then in the sinks, if any.
#[tactic(auto, using(crate::proofs::Maps::lists, crate::proofs::Entries::entries))]
pub(crate) fn bag<N: NodeKind, C: CostKind, G: Graph<Node = N, Cost = C>>(
    found: &mut Found<'_, N, C>,
    heap: &mut Heap<'_, C>,
    sinks: &mut Sinks,
    graph: &Guided<'_, G>,
    start: N,
) -> Result<Option<C>, SeekRefusal>
    requires held { G.holds graph.now.below.now (N.key start) ≡ true }
    requires rows { heap.old.rows ≡ found.old.room }
    requires places { found.old.room ≤ sinks.old.places }
    ensures rows { heap.new.rows ≡ found.new.room }
    ensures places { sinks.new.places ≡ sinks.old.places }
    ensures memory { HasMemoryOf found.old found.new }
    ensures well { BagEndsWell found.new.rows sinks.new.sinks result }
    ensures answer { Ends (λ b. turns C.kind (means G.Graph graph.now.below.now) (G.guesses graph.now.below.now) (capacity_of found.old) (first_out b.search.waits) b) (begun (N.key start)) (bag_end C.weight result found.new.rows sinks.new.sinks) }
{
    found.begin(start, Keeps::All);
    heap.clear();
    heap.push(0, C::zero(), C::zero());
    sinks.clear();
    run(found, heap, sinks, graph, start)
}
