// The turns of fringe: rows are taken from the front of a queue within a limit, pass by pass, each with a higher limit.
ghost use Rattle.std.specs.Prelude.{◌≡◌, ◌<◌, true};
ghost use Rattle.graph.specs.Means.{means};
ghost use Rattle.search.specs.Roads.{one};
ghost use Rattle.search.specs.Fringe.{fringe as turns, begin as begun};
ghost use Rattle.search.specs.Ends.{Ends};
ghost use Rattle.planner.specs.Standing.{After, HasMemoryOf, capacity_of, state_of};
ghost use Rattle.planner.specs.TwoQueues.{fringe_of, AreQueuesOf};
ghost use Rattle.planner.specs.Turns.{turned_of, end_of, IsBrokenIn, EndsWell};

use crate::found::Found;
use crate::goal::Goal;
use crate::roads::follow;
use crate::two_queues::TwoQueues;
use graph::Graph;
use kinds::{CostKind, NodeKind};
use links::parents::Keeps;
use search::SeekRefusal;
use std::ops::ControlFlow;

// One turn. Takes the front of now: it is left for later over the limit, a goal within it ends the search, and the roads of
// another row are followed. Where now is empty the next pass begins, if any waits.
#[tactic(auto, using(crate::proofs::Maps::lists, crate::proofs::Entries::rows_below), unfolding(search::specs::Fringe::fringe, search::specs::Fringe::passed, search::specs::Fringe::within, search::specs::Fringe::limited, search::specs::Fringe::summed))]
fn turn<N: NodeKind, C: CostKind, G: Graph<Node = N, Cost = C>>(
    found: &mut Found<'_, N, C>,
    waits: &mut TwoQueues<'_, C>,
    graph: &G,
) -> Result<ControlFlow<Option<Goal<C>>>, SeekRefusal>
    requires one { found.old.keeps ≡ one }
    requires served { AreQueuesOf found.old waits.old }
    ensures served { AreQueuesOf found.new waits.new }
    ensures after { After found.old found.new }
    ensures ends { IsBrokenIn found.old found.new result }
    ensures answer { turned_of C.weight result (state_of found.new (fringe_of C.weight waits.new)) ≡ turns C.kind (means G.Graph graph.now) (G.guesses graph.now) (capacity_of found.old) waits.old.queues.now (state_of found.old (fringe_of C.weight waits.old)) }
{
    let Some(row) = waits.take_front() else {
        return Ok(if waits.start_pass() {
            ControlFlow::Continue(())
        } else {
            ControlFlow::Break(None)
        });
    };
    let node = found.node(row);
    let cost = found.cost(row);
    let Some(sum) = cost.sum(graph.guess(&node)) else {
        return Err(SeekRefusal::NoSum { row, rank: None });
    };
    if waits.limit < sum {
        waits.put_off(row, sum);
        return Ok(ControlFlow::Continue(()));
    }
    if graph.goal(&node) {
        return Ok(ControlFlow::Break(Some(Goal { row, cost })));
    }
    follow(found, waits, graph, row)?;
    Ok(ControlFlow::Continue(()))
}

// Turns until the search ends.
#[tactic(auto, using(search::specs::Ends::last, search::specs::Ends::next))]
fn run<N: NodeKind, C: CostKind, G: Graph<Node = N, Cost = C>>(
    found: &mut Found<'_, N, C>,
    waits: &mut TwoQueues<'_, C>,
    graph: &G,
    start: N,
) -> Result<Option<Goal<C>>, SeekRefusal>
    requires held { G.holds graph.now (N.key start) ≡ true }
    requires one { found.old.keeps ≡ one }
    requires served { AreQueuesOf found.old waits.old }
    requires begun { state_of found.old (fringe_of C.weight waits.old) ≡ begun C.kind (means G.Graph graph.now) (G.guesses graph.now) (capacity_of found.old) (N.key start) }
    ensures served { AreQueuesOf found.new waits.new }
    ensures after { After found.old found.new }
    ensures well { EndsWell found.new.rows result }
    ensures answer { Ends (λ s. turns C.kind (means G.Graph graph.now) (G.guesses graph.now) (capacity_of found.old) s.waits.now s) (begun C.kind (means G.Graph graph.now) (G.guesses graph.now) (capacity_of found.old) (N.key start)) (end_of C.weight result found.new.rows) }
{
    loop {
        if let ControlFlow::Break(end) = turn(found, waits, graph)? {
            return Ok(end);
        }
    }
}

// The search from a start that is held.
#[tactic(auto, using(crate::proofs::Maps::lists, crate::proofs::Entries::rows_below))]
pub(crate) fn by_passes<N: NodeKind, C: CostKind, G: Graph<Node = N, Cost = C>>(
    found: &mut Found<'_, N, C>,
    waits: &mut TwoQueues<'_, C>,
    graph: &G,
    start: N,
) -> Result<Option<Goal<C>>, SeekRefusal>
    requires held { G.holds graph.now (N.key start) ≡ true }
    requires rows { waits.old.queues.rows ≡ found.old.room }
    ensures rows { waits.new.queues.rows ≡ found.new.room }
    ensures memory { HasMemoryOf found.old found.new }
    ensures well { EndsWell found.new.rows result }
    ensures answer { Ends (λ s. turns C.kind (means G.Graph graph.now) (G.guesses graph.now) (capacity_of found.old) s.waits.now s) (begun C.kind (means G.Graph graph.now) (G.guesses graph.now) (capacity_of found.old) (N.key start)) (end_of C.weight result found.new.rows) }
{
    found.begin(start, Keeps::One);
    waits.begin(graph.guess(&start));
    run(found, waits, graph, start)
}
