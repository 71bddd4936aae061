// The rows of a path: row k is its k-th node, reached from the row before.
ghost use Rattle.std.specs.Prelude.{◌≡◌, ◌≤◌};
ghost use Rattle.graph.specs.Means.{means};
ghost use Rattle.search.specs.declared.method.Method.TheVariants.{Idastar};
ghost use Rattle.search.specs.Answers.{Answers};
ghost use Rattle.planner.specs.Paths.{path_parents};
ghost use Rattle.planner.specs.Standing.{HasMemoryOf, capacity_of};
ghost use Rattle.planner.specs.Turns.{end_of, EndsWell};

use crate::found::Found;
use crate::goal::Goal;
use deepening::Tries;
use graph::Graph;
use kinds::{CostKind, NodeKind};
use links::parents::{Keeps, Parents};
use search::SeekRefusal;

// So many rows, each but the first with the one before as its parent.
#[tactic(auto, using(crate::proofs::Paths::length_path, crate::proofs::Maps::set_last))]
fn chain(parents: &mut Parents, count: usize)
    requires fits { count ≤ parents.old.rows }
    requires few { count ≤ 32768 }
    ensures lists { parents.new.lists ≡ path_parents count }
    ensures room { parents.new.room ≡ parents.old.room }
    ensures rows { parents.new.rows ≡ parents.old.rows }
{
    parents.begin(Keeps::One);
    for row in 0..count {
        parents.start_list();
        if row > 0 {
            parents.replace(row as u16, row as u16 - 1);
        }
    }
}

impl<'a, N: NodeKind, C: CostKind> Found<'a, N, C> {
    // Seeks by idastar: the rows are those of the path to the goal, the last row.
    pub(crate) fn find_path<G: Graph<Node = N, Cost = C>>(
        &mut self,
        tries: &mut Tries,
        graph: &G,
        start: N,
    ) -> Result<Option<Goal<C>>, SeekRefusal>
        requires { tries.old.room ≡ self.old.room }
        ensures answer { Answers Idastar C.kind (means G.Graph graph.now) (G.guesses graph.now) (capacity_of self.old) (N.key start) (end_of C.weight result self.new.rows) }
        ensures well { EndsWell self.new.rows result }
        ensures memory { HasMemoryOf self.old self.new }
        ensures tries { tries.new.room ≡ tries.old.room }
    {
        let end = deepening::idastar(&mut self.register, tries, graph, start);
        let count = self.register.len();
        chain(&mut self.parents, count);
        match end {
            Ok(Some(cost)) => {
                let row = count as u16 - 1;
                Ok(Some(Goal { row, cost }))
            }
            Ok(None) => Ok(None),
            Err(refusal) => Err(refusal),
        }
    }
}
