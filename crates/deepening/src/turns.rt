// idastar, turn by turn.
ghost use Rattle.std.specs.Prelude.{◌≡◌, ◌<◌, ◌≤◌, []};
ghost use Rattle.graph.specs.Means.{means};
ghost use Rattle.search.specs.Ends.{Ends};
ghost use Rattle.search.specs.Answers.{Answers};
ghost use Rattle.search.specs.declared.method.Method.TheVariants.{Idastar};
ghost use Rattle.deepening.specs.Steps.{rows_only, beginning, turning};
ghost use Rattle.deepening.specs.Views.{state_of, noted_of, turn_of, outcome_of, IsPaired};

use crate::pass::Pass;
use crate::path::{arrive, end_of, next_road, take_back, try_road};
use crate::tries::Tries;
use graph::Graph;
use kinds::{CostKind, NodeKind};
use search::SeekRefusal;
use std::ops::ControlFlow;
use store::register::Register;

// A pass begins, within the least sum that the one before noted.
fn again<N: NodeKind, C: CostKind, G: Graph<Node = N, Cost = C>>(
    register: &mut Register<'_, N, C>,
    tries: &mut Tries<'_>,
    pass: &mut Pass<C>,
    graph: &G,
    start: N,
) -> Result<ControlFlow<Option<C>>, SeekRefusal>
    requires paired { IsPaired register.old tries.old }
    requires empty { register.old.listed ≡ [] }
    ensures paired { IsPaired register.new tries.new }
    ensures rows { register.new.room ≡ register.old.room }
    ensures tries { tries.new.room ≡ tries.old.room }
    ensures answer { turn_of N.key C.weight result register.new tries.new pass.new
        ≡ beginning C.kind (means G.Graph graph.now) (G.guesses graph.now) register.old.room
        (N.key start) (noted_of C.weight pass.old.noted) }
{
    let Some(bound) = pass.noted else {
        return Ok(ControlFlow::Break(None));
    };
    *pass = Pass { bound, noted: None };
    arrive(register, tries, pass, graph, start, C::zero())
}

// One turn: the next road from the end of the path is tried, or the end is taken back, or a pass begins.
#[tactic(auto, unfolding(search::specs::Loop::turn))]
fn turn<N: NodeKind, C: CostKind, G: Graph<Node = N, Cost = C>>(
    register: &mut Register<'_, N, C>,
    tries: &mut Tries<'_>,
    pass: &mut Pass<C>,
    graph: &G,
    start: N,
) -> Result<ControlFlow<Option<C>>, SeekRefusal>
    requires paired { IsPaired register.old tries.old }
    ensures paired { IsPaired register.new tries.new }
    ensures rows { register.new.room ≡ register.old.room }
    ensures tries { tries.new.room ≡ tries.old.room }
    ensures answer { turn_of N.key C.weight result register.new tries.new pass.new
        ≡ turning C.kind (means G.Graph graph.now) (G.guesses graph.now) register.old.room
        (N.key start) (state_of N.key C.weight register.old tries.old pass.old) }
{
    let Some(end) = end_of(register, tries) else {
        return again(register, tries, pass, graph, start);
    };
    match next_road(register, graph, end)? {
        None => {
            take_back(register, tries);
            Ok(ControlFlow::Continue(()))
        }
        Some(road) => try_road(register, tries, pass, graph, end, road),
    }
}

// Turns until the search ends.
#[tactic(auto, using(search::specs::Ends::last, search::specs::Ends::next, search::proofs::Rowed::rows_fall))]
fn run<N: NodeKind, C: CostKind, G: Graph<Node = N, Cost = C>>(
    register: &mut Register<'_, N, C>,
    tries: &mut Tries<'_>,
    pass: &mut Pass<C>,
    graph: &G,
    start: N,
) -> Result<Option<C>, SeekRefusal>
    requires paired { IsPaired register.old tries.old }
    ensures rows { register.new.room ≡ register.old.room }
    ensures tries { tries.new.room ≡ tries.old.room }
    ensures answer { Ends
        (turning C.kind (means G.Graph graph.now) (G.guesses graph.now) register.old.room
        (N.key start))
        (state_of N.key C.weight register.old tries.old pass.old)
        (outcome_of N.key C.weight result register.new) }
{
    loop {
        if let ControlFlow::Break(end) = turn(register, tries, pass, graph, start)? {
            return Ok(end);
        }
    }
}

/// Seeks a route from the start to a goal, over the graph as it answers, and answers its cost, or nothing where there is none.
/// The register then has the route: row k is its k-th node, at the cost of the road up to there.
///
/// What the register and `tries` had before is dropped.
///
/// # Errors
///
/// `NotHeld` where the graph does not hold the start; `FaultyRoad`, `NoSum` and `NoRow` with the row on the path whose roads were
/// followed, and `NoSum` with the row that was come to and no rank, where its cost has no sum with its guess.
pub fn idastar<N: NodeKind, C: CostKind, G: Graph<Node = N, Cost = C>>(
    register: &mut Register<'_, N, C>,
    tries: &mut Tries<'_>,
    graph: &G,
    start: N,
) -> Result<Option<C>, SeekRefusal>
    requires some { 0 < register.old.room }
    requires as_many { register.old.room ≤ tries.old.room }
    ensures rows { register.new.room ≡ register.old.room }
    ensures tries { tries.new.room ≡ tries.old.room }
    ensures answer { Answers Idastar C.kind (means G.Graph graph.now) (G.guesses graph.now)
        (rows_only register.old.room) (N.key start) (outcome_of N.key C.weight result register.new) }
{
    if !graph.held(&start) {
        return Err(SeekRefusal::NotHeld);
    }
    register.clear();
    tries.clear();
    let mut pass = Pass {
        bound: C::zero(),
        noted: Some(graph.guess(&start)),
    };
    run(register, tries, &mut pass, graph, start)
}
