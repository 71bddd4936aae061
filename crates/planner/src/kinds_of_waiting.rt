// What waits in a heap, and what waits in two queues.
ghost use Rattle.std.specs.Prelude.{◌≡◌, List};
ghost use Rattle.search.specs.Queue.{Entry};
ghost use Rattle.search.specs.Best.{push};
ghost use Rattle.search.specs.Fringe.{Fringe, to_front};
ghost use Rattle.planner.specs.Entries.{entries_of, EntriesBelow};
ghost use Rattle.planner.specs.TwoQueues.{fringe_of, QueuesBelow};
ghost use Rattle.planner.specs.Wider.{wider_entries, wider_queues};

use crate::estimates::Estimates;
use crate::open::Open;
use crate::two_queues::TwoQueues;
use crate::waits::Waits;
use graph::Graph;
use kinds::CostKind;
use search::SeekRefusal;
use store::heap::Heap;

// A row enters the heap by its estimate, in place of its older entry.
impl<'a, C: CostKind, G: Estimates<Cost = C>> Waits<G> for Heap<'a, C> {
    ghost Stood = { List Entry };

    ghost stands = { λ h. entries_of C.weight h };

    ghost enters = { λ g. push (G.estimates g) };

    ghost rows = { λ h. h.rows };

    ghost Below = { EntriesBelow };

    ghost wider = { wider_entries };

    #[tactic(auto, using(crate::proofs::Entries::entries))]
    fn enter(&mut self, graph: &G, road: &Open<G::Node, C>, at: u16) -> Result<(), SeekRefusal> {
        let estimate = graph.estimate(road).ok_or(SeekRefusal::NoSum {
            row: road.row,
            rank: Some(road.rank),
        })?;
        self.push(at, estimate, road.sum);
        Ok(())
    }
}

// A row leaves its queue and goes to the front of now.
impl<'a, C: CostKind, G: Graph<Cost = C>> Waits<G> for TwoQueues<'a, C> {
    ghost Stood = { Fringe };

    ghost stands = { λ q. fringe_of C.weight q };

    ghost enters = { λ g. to_front };

    ghost rows = { λ q. q.queues.rows };

    ghost Below = { QueuesBelow };

    ghost wider = { wider_queues };

    #[tactic(auto, using(crate::proofs::Entries::rows_below))]
    fn enter(&mut self, _graph: &G, _road: &Open<G::Node, C>, at: u16) -> Result<(), SeekRefusal> {
        self.queues.to_front(at);
        Ok(())
    }
}
