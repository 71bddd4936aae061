// What waits in fringe search: the rows of this pass and of a later one.
ghost use Rattle.std.specs.Prelude.{◌≡◌, ◌<◌, ◌≤◌, length, Bool, true, false, min, [], ◌∷◌, ◌++◌, IfSome};
ghost use Rattle.queues.specs.Lists.{without};
ghost use Rattle.queues.specs.Queues.{front, behind};
ghost use Rattle.planner.specs.TwoQueues.{has_any};

use kinds::CostKind;
use queues::nodes::Neighbours;
use queues::queues::Queues;
use std::marker::Model;

// Two queues of rows, the limit of this pass, and the least sum above it that was met.
#[derive(Drop)]
pub(crate) struct TwoQueues<'a, C: CostKind> {
    pub(crate) queues: Queues<'a>,
    pub(crate) limit: C,
    pub(crate) least: C,
}

impl<'a, C: CostKind> Model for TwoQueues<'a, C> {
    ghost use Rattle.planner.specs.TwoQueues.{Limited};

    ghost Value = { Limited C };

    ghost view = { λ q. record { queues = q.queues; limit = q.limit; least = q.least } };
}

impl<'a, C: CostKind> TwoQueues<'a, C> {
    // Two empty queues, over lent memory.
    pub(crate) fn over(rows: &'a mut [Neighbours]) -> TwoQueues<'a, C>
        requires { length rows.old ≤ 32768 }
        ensures { result.queues.rows ≡ length rows.old }
    {
        TwoQueues {
            queues: Queues::new(rows),
            limit: C::zero(),
            least: C::zero(),
        }
    }

    // Row 0 waits alone, within a limit.
    pub(crate) fn begin(&mut self, limit: C)
        requires { 0 < self.old.queues.rows }
        ensures now { self.new.queues.now ≡ 0 ∷ [] }
        ensures later { self.new.queues.later ≡ [] }
        ensures rows { self.new.queues.rows ≡ self.old.queues.rows }
        ensures limit { self.new.limit ≡ limit }
        ensures least { C.weight self.new.least ≡ C.kind.greatest }
    {
        self.queues.start(0);
        self.limit = limit;
        self.least = C::greatest();
    }

    // Takes the front of now, which is then in neither queue.
    pub(crate) fn take_front(&mut self) -> Option<u16>
        ensures front { result ≡ front self.old.queues.now }
        ensures now { self.new.queues.now ≡ behind self.old.queues.now }
        ensures later { self.new.queues.later ≡ self.old.queues.later }
        ensures rows { self.new.queues.rows ≡ self.old.queues.rows }
        ensures limit { self.new.limit ≡ self.old.limit }
        ensures least { self.new.least ≡ self.old.least }
        ensures inside { IfSome result (λ j. j < self.old.queues.rows) }
        ensures left { IfSome result (λ j. (without j self.new.queues.now ≡ self.new.queues.now) × (without j self.new.queues.later ≡ self.new.queues.later)) }
    {
        self.queues.take_front()
    }

    // A row that was taken is left for later, since its sum is above the limit.
    pub(crate) fn put_off(&mut self, row: u16, sum: C)
        requires row { row < self.old.queues.rows }
        requires now { without row self.old.queues.now ≡ self.old.queues.now }
        requires later { without row self.old.queues.later ≡ self.old.queues.later }
        ensures now { self.new.queues.now ≡ self.old.queues.now }
        ensures later { self.new.queues.later ≡ self.old.queues.later ++ row ∷ [] }
        ensures rows { self.new.queues.rows ≡ self.old.queues.rows }
        ensures limit { self.new.limit ≡ self.old.limit }
        ensures least { C.weight self.new.least ≡ min (C.weight self.old.least) (C.weight sum) }
    {
        self.queues.to_back_of_later(row);
        if sum < self.least {
            self.least = sum;
        }
    }

    // Where now is empty, what was left for later is next, within the least sum that was met; whether there is any.
    pub(crate) fn start_pass(&mut self) -> bool
        requires { self.old.queues.now ≡ [] }
        ensures any { result ≡ has_any self.old.queues.later }
        ensures now { self.new.queues.now ≡ self.old.queues.later }
        ensures later { self.new.queues.later ≡ [] }
        ensures rows { self.new.queues.rows ≡ self.old.queues.rows }
        ensures limit { self.new.limit ≡ self.old.least }
        ensures least { C.weight self.new.least ≡ C.kind.greatest }
    {
        self.queues.swap();
        self.limit = self.least;
        self.least = C::greatest();
        self.queues.front().is_some()
    }
}
