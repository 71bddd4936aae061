// The path: its end, the next road from there, and coming to a node.
ghost use Rattle.std.specs.Prelude.{◌≡◌, ◌-◌, ◌<◌, false, [], ◌∷◌, ◌++◌, length, take, MatchOption, None};
ghost use Rattle.graph.specs.Means.{means};
ghost use Rattle.search.specs.Members.{has};
ghost use Rattle.search.specs.Scan.{look as looks, scan, untried};
ghost use Rattle.deepening.specs.Steps.{tried_last, arriving, trying};
ghost use Rattle.deepening.specs.Views.{row_of, rows_of, nodes_of, path_of, path_on, state_of, try_of, best_of, next_of, left_of, turn_of, on_way, IsEnd, IsPaired};

use crate::pass::Pass;
use crate::roads::{Road, better_of, is_due, last_road};
use crate::tries::{Tried, Tries};
use graph::Graph;
use kinds::{CostKind, NodeKind};
use search::SeekRefusal;
use std::ops::ControlFlow;
use store::register::Register;

// The end of the path: its row, its node, the cost there, and what was tried last.
#[derive(Clone, Copy)]
pub struct End<N, C> {
    pub row: u16,
    pub node: N,
    pub cost: C,
    pub tried: Tried,
}

// The end of the path.
pub(crate) fn end_of<N: NodeKind, C: CostKind>(
    register: &Register<'_, N, C>,
    tries: &Tries<'_>,
) -> Option<End<N, C>>
    requires { IsPaired register.now tries.now }
    ensures { MatchOption result (register.now.listed ≡ [])
        (λ e. IsEnd N.key C.weight e register.now tries.now) }
{
    let len = register.len();
    if len == 0 {
        return None;
    }
    let row = (len - 1) as u16;
    let node = register.node(row);
    let cost = register.value(row);
    let tried = tries.tried(row);
    Some(End {
        row,
        node,
        cost,
        tried,
    })
}

// Whether the node is on the path.
fn is_on_path<N: NodeKind, C: CostKind>(register: &Register<'_, N, C>, node: &N) -> bool
    ensures { result ≡ has (N.key node.now) (nodes_of N.key C.weight register.now.listed) }
{
    register.find(node).is_some()
}

// The better of the best so far and the road of a rank, if that is due.
fn look<N: NodeKind, C: CostKind, G: Graph<Node = N, Cost = C>>(
    register: &Register<'_, N, C>,
    graph: &G,
    end: End<N, C>,
    tried: Option<Road<N, C>>,
    rank: u16,
    best: Option<Road<N, C>>,
) -> Result<Option<Road<N, C>>, SeekRefusal>
    ensures { next_of N.key C.weight result
        ≡ looks C.kind (means G.Graph graph.now) (G.guesses graph.now)
        (path_of N.key C.weight register.now.listed end) (best_of N.key C.weight tried)
        rank ((means G.Graph graph.now).road (N.key end.node) rank) (best_of N.key C.weight best) }
{
    match graph.road(&end.node, rank) {
        Err(fault) => Err(SeekRefusal::FaultyRoad {
            row: end.row,
            fault,
        }),
        Ok(None) => Ok(best),
        Ok(Some((node, weight))) => {
            if is_on_path(register, &node) {
                return Ok(best);
            }
            let Some(order) = weight.sum(graph.guess(&node)) else {
                return Err(SeekRefusal::NoSum {
                    row: end.row,
                    rank: Some(rank),
                });
            };
            let road = Road {
                rank,
                node,
                weight,
                order,
            };
            if is_due(tried, road) {
                return Ok(better_of(best, road));
            }
            Ok(best)
        }
    }
}

// The next road to try from the end of the path.
#[tactic(auto, unfolding(search::specs::Scan::scan))]
pub(crate) fn next_road<N: NodeKind, C: CostKind, G: Graph<Node = N, Cost = C>>(
    register: &Register<'_, N, C>,
    graph: &G,
    end: End<N, C>,
) -> Result<Option<Road<N, C>>, SeekRefusal>
    ensures { next_of N.key C.weight result
        ≡ scan C.kind (means G.Graph graph.now) (G.guesses graph.now)
        (path_of N.key C.weight register.now.listed end)
        (tried_last C.kind (means G.Graph graph.now) (G.guesses graph.now)
        (N.key end.node) (left_of end.tried))
        ((means G.Graph graph.now).count (N.key end.node)) 0 None }
{
    let tried = last_road(graph, end.node, end.tried);
    let mut best = None;
    let count = graph.road_count(&end.node);
    for rank in 0..count {
        best = look(register, graph, end, tried, rank, best)?;
    }
    Ok(best)
}

// Puts a node at the end of the path.
fn extend<N: NodeKind, C: CostKind>(
    register: &mut Register<'_, N, C>,
    tries: &mut Tries<'_>,
    node: N,
    cost: C,
)
    requires paired { IsPaired register.old tries.old }
    requires off { has (N.key node) (nodes_of N.key C.weight register.old.listed) ≡ false }
    requires room { length register.old.listed < register.old.room }
    ensures paired { IsPaired register.new tries.new }
    ensures rows { register.new.room ≡ register.old.room }
    ensures tries { tries.new.room ≡ tries.old.room }
    ensures keys { nodes_of N.key C.weight register.new.listed
        ≡ nodes_of N.key C.weight register.old.listed ++ N.key node ∷ [] }
    ensures path { rows_of N.key C.weight register.new.listed tries.new.lefts
        ≡ rows_of N.key C.weight register.old.listed tries.old.lefts
        ++ row_of N.key C.weight (node, cost) untried ∷ [] }
{
    let _ = register.add(node, cost);
    tries.add();
}

// Takes the end of the path back.
pub(crate) fn take_back<N: NodeKind, C: CostKind>(
    register: &mut Register<'_, N, C>,
    tries: &mut Tries<'_>,
)
    requires paired { IsPaired register.old tries.old }
    requires some { 0 < length register.old.listed }
    ensures paired { IsPaired register.new tries.new }
    ensures rows { register.new.room ≡ register.old.room }
    ensures tries { tries.new.room ≡ tries.old.room }
    ensures path { rows_of N.key C.weight register.new.listed tries.new.lefts
        ≡ take (length register.old.listed - 1)
        (rows_of N.key C.weight register.old.listed tries.old.lefts) }
{
    register.take_back();
    tries.take_back();
}

// Comes to a node off the path.
#[tactic(auto, using(crate::proofs::Nodes::rows_length, crate::proofs::Nodes::rows_keys))]
pub(crate) fn arrive<N: NodeKind, C: CostKind, G: Graph<Node = N, Cost = C>>(
    register: &mut Register<'_, N, C>,
    tries: &mut Tries<'_>,
    pass: &mut Pass<C>,
    graph: &G,
    node: N,
    cost: C,
) -> Result<ControlFlow<Option<C>>, SeekRefusal>
    requires paired { IsPaired register.old tries.old }
    requires off { has (N.key node) (nodes_of N.key C.weight register.old.listed) ≡ false }
    requires room { length register.old.listed < register.old.room }
    ensures paired { IsPaired register.new tries.new }
    ensures rows { register.new.room ≡ register.old.room }
    ensures tries { tries.new.room ≡ tries.old.room }
    ensures answer { turn_of N.key C.weight result register.new tries.new pass.new
        ≡ arriving C.kind (means G.Graph graph.now) (G.guesses graph.now)
        (path_on N.key C.weight register.old.listed node cost)
        (state_of N.key C.weight register.old tries.old pass.old) }
{
    let row = register.len() as u16;
    let Some(sum) = cost.sum(graph.guess(&node)) else {
        return Err(SeekRefusal::NoSum { row, rank: None });
    };
    if pass.bound < sum {
        pass.note(sum);
        return Ok(ControlFlow::Continue(()));
    }
    extend(register, tries, node, cost);
    if graph.goal(&node) {
        return Ok(ControlFlow::Break(Some(cost)));
    }
    Ok(ControlFlow::Continue(()))
}

// Tries a road from the end of the path.
pub(crate) fn try_road<N: NodeKind, C: CostKind, G: Graph<Node = N, Cost = C>>(
    register: &mut Register<'_, N, C>,
    tries: &mut Tries<'_>,
    pass: &mut Pass<C>,
    graph: &G,
    end: End<N, C>,
    road: Road<N, C>,
) -> Result<ControlFlow<Option<C>>, SeekRefusal>
    requires paired { IsPaired register.old tries.old }
    requires end { IsEnd N.key C.weight end register.old tries.old }
    requires off { has (N.key road.node) (nodes_of N.key C.weight register.old.listed) ≡ false }
    ensures paired { IsPaired register.new tries.new }
    ensures rows { register.new.room ≡ register.old.room }
    ensures tries { tries.new.room ≡ tries.old.room }
    ensures answer { turn_of N.key C.weight result register.new tries.new pass.new
        ≡ trying C.kind (means G.Graph graph.now) (G.guesses graph.now) register.old.room
        (path_of N.key C.weight register.old.listed end) (try_of N.key C.weight road)
        (on_way (state_of N.key C.weight register.old tries.old pass.old)
        end.row (N.key end.node) (C.weight end.cost) road.rank) }
{
    let Some(sum) = end.cost.sum(road.weight) else {
        return Err(SeekRefusal::NoSum {
            row: end.row,
            rank: Some(road.rank),
        });
    };
    if register.is_full() {
        return Err(SeekRefusal::NoRow {
            row: end.row,
            rank: road.rank,
        });
    }
    tries.keep(end.row, road.rank);
    arrive(register, tries, pass, graph, road.node, sum)
}
