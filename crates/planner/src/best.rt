// dijkstra and astar: the first out of the heap is taken, up to a goal.
ghost use Rattle.std.specs.Prelude.{◌≡◌, true};
ghost use Rattle.graph.specs.Means.{means};
ghost use Rattle.search.specs.Roads.{one};
ghost use Rattle.search.specs.Queue.{first_out};
ghost use Rattle.search.specs.Best.{best as turns, begin as begun};
ghost use Rattle.search.specs.Ends.{Ends};
ghost use Rattle.planner.specs.Standing.{After, HasMemoryOf, capacity_of, state_of};
ghost use Rattle.planner.specs.Entries.{entries_of, IsHeapOf};
ghost use Rattle.planner.specs.Turns.{turned_of, end_of, IsBrokenIn, EndsWell};

use crate::estimates::Estimates;
use crate::found::Found;
use crate::goal::Goal;
use crate::roads::follow;
use kinds::{CostKind, NodeKind};
use links::parents::Keeps;
use search::SeekRefusal;
use std::ops::ControlFlow;
use store::heap::Heap;
use store::slots::Waiting;

// One turn. Takes the first out: a goal ends the search, and the roads of another row are followed. The search ends too where
// none waits.
#[tactic(auto, using(crate::proofs::Maps::lists, crate::proofs::Entries::entries), unfolding(search::specs::Best::best, search::specs::Best::taken))]
fn turn<N: NodeKind, C: CostKind, G: Estimates<Node = N, Cost = C>>(
    found: &mut Found<'_, N, C>,
    heap: &mut Heap<'_, C>,
    graph: &G,
) -> Result<ControlFlow<Option<Goal<C>>>, SeekRefusal>
    requires one { found.old.keeps ≡ one }
    requires served { IsHeapOf found.old heap.old }
    ensures served { IsHeapOf found.new heap.new }
    ensures after { After found.old found.new }
    ensures ends { IsBrokenIn found.old found.new result }
    ensures answer { turned_of C.weight result (state_of found.new (entries_of C.weight heap.new)) ≡ turns C.kind (means G.Graph graph.now) (G.estimates graph.now) (capacity_of found.old) (first_out (entries_of C.weight heap.old)) (state_of found.old (entries_of C.weight heap.old)) }
{
    let Some(Waiting { row, .. }) = heap.pop() else {
        return Ok(ControlFlow::Break(None));
    };
    if graph.goal(&found.node(row)) {
        let cost = found.cost(row);
        return Ok(ControlFlow::Break(Some(Goal { row, cost })));
    }
    follow(found, heap, graph, row)?;
    Ok(ControlFlow::Continue(()))
}

// Turns until the search ends.
#[tactic(auto, using(search::specs::Ends::last, search::specs::Ends::next, search::proofs::HeapEnds::best_falls))]
fn run<N: NodeKind, C: CostKind, G: Estimates<Node = N, Cost = C>>(
    found: &mut Found<'_, N, C>,
    heap: &mut Heap<'_, C>,
    graph: &G,
    start: N,
) -> Result<Option<Goal<C>>, SeekRefusal>
    requires held { G.holds graph.now (N.key start) ≡ true }
    requires one { found.old.keeps ≡ one }
    requires served { IsHeapOf found.old heap.old }
    requires begun { state_of found.old (entries_of C.weight heap.old) ≡ begun (N.key start) }
    ensures served { IsHeapOf found.new heap.new }
    ensures after { After found.old found.new }
    ensures well { EndsWell found.new.rows result }
    ensures answer { Ends (λ s. turns C.kind (means G.Graph graph.now) (G.estimates graph.now) (capacity_of found.old) (first_out s.waits) s) (begun (N.key start)) (end_of C.weight result found.new.rows) }
{
    loop {
        if let ControlFlow::Break(end) = turn(found, heap, graph)? {
            return Ok(end);
        }
    }
}

// The search from a start that is held.
#[tactic(auto, using(crate::proofs::Maps::lists, crate::proofs::Entries::entries))]
pub(crate) fn best<N: NodeKind, C: CostKind, G: Estimates<Node = N, Cost = C>>(
    found: &mut Found<'_, N, C>,
    heap: &mut Heap<'_, C>,
    graph: &G,
    start: N,
) -> Result<Option<Goal<C>>, SeekRefusal>
    requires held { G.holds graph.now (N.key start) ≡ true }
    requires rows { heap.old.rows ≡ found.old.room }
    ensures rows { heap.new.rows ≡ found.new.room }
    ensures memory { HasMemoryOf found.old found.new }
    ensures well { EndsWell found.new.rows result }
    ensures answer { Ends (λ s. turns C.kind (means G.Graph graph.now) (G.estimates graph.now) (capacity_of found.old) (first_out s.waits) s) (begun (N.key start)) (end_of C.weight result found.new.rows) }
{
    found.begin(start, Keeps::One);
    heap.clear();
    heap.push(0, C::zero(), C::zero());
    run(found, heap, graph, start)
}
