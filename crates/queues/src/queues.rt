// The queues now and later of fringe search: rows below a number, each in at most one of the two, at most once.
ghost use Rattle.std.specs.Prelude.{◌≡◌, ◌<◌, ◌≤◌, [], ◌∷◌, ◌++◌, length, IfSome};
ghost use Rattle.queues.specs.Lists.{without};
ghost use Rattle.queues.specs.Queues.{front, behind, IsLoose};

use crate::nodes::Neighbours;
use crate::ring::Ring;
use std::marker::Model;

// The queues over lent rows: one ring, in which a border parts the rows of now from those of later.
#[derive(Drop)]
pub struct Queues<'a> {
    ring: Ring<'a>,
}

impl<'a> Model for Queues<'a> {
    ghost use Rattle.queues.specs.Queues.{Queued, parted, Bordered};

    ghost Value = { Queued };

    ghost view = { λ q. parted q.ring };

    ghost invariant = { λ q. Bordered q.ring.rows q.ring.order };
}

// A row leaves the ring, if it is in it.
fn leave(ring: &mut Ring, row: u16)
    requires { row < ring.old.rows }
    ensures order { ring.new.order ≡ without row ring.old.order }
    ensures rows { ring.new.rows ≡ ring.old.rows }
{
    if ring.holds(row) {
        ring.take_out(row);
    }
}

impl<'a> Queues<'a> {
    // Two empty queues.
    pub fn new(rows: &'a mut [Neighbours]) -> Queues<'a>
        requires { length rows.old ≤ 32768 }
        ensures now { result.now ≡ [] }
        ensures later { result.later ≡ [] }
        ensures rows { result.rows ≡ length rows.old }
    {
        Queues {
            ring: Ring::new(rows),
        }
    }

    // Empties both.
    pub fn clear(&mut self)
        ensures now { self.new.now ≡ [] }
        ensures later { self.new.later ≡ [] }
        ensures rows { self.new.rows ≡ self.old.rows }
    {
        self.ring.clear();
    }

    // Now holds a row, and later none.
    pub fn start(&mut self, row: u16)
        requires { row < self.old.rows }
        ensures now { self.new.now ≡ row ∷ [] }
        ensures later { self.new.later ≡ [] }
        ensures rows { self.new.rows ≡ self.old.rows }
    {
        self.clear();
        self.to_front(row);
    }

    // The front of now.
    pub fn front(&self) -> Option<u16>
        ensures { result ≡ front self.now.now }
    {
        let first = self.ring.first();
        if first == self.ring.border() {
            return None;
        }
        Some(first)
    }

    // Takes the front of now, which is then in neither queue.
    pub fn take_front(&mut self) -> Option<u16>
        ensures front { result ≡ front self.old.now }
        ensures now { self.new.now ≡ behind self.old.now }
        ensures later { self.new.later ≡ self.old.later }
        ensures rows { self.new.rows ≡ self.old.rows }
        ensures inside { IfSome result (λ j. j < self.old.rows) }
        ensures left { IfSome result (λ j. IsLoose j self.new) }
    {
        let first = self.ring.first();
        if first == self.ring.border() {
            return None;
        }
        self.ring.take_out(first);
        Some(first)
    }

    // A row leaves its queue, if it is in one, and goes to the front of now.
    pub fn to_front(&mut self, row: u16)
        requires { row < self.old.rows }
        ensures now { self.new.now ≡ row ∷ without row self.old.now }
        ensures later { self.new.later ≡ without row self.old.later }
        ensures rows { self.new.rows ≡ self.old.rows }
    {
        leave(&mut self.ring, row);
        self.ring.put_first(row);
    }

    // A row leaves its queue, if it is in one, and goes to the back of later.
    pub fn to_back_of_later(&mut self, row: u16)
        requires { row < self.old.rows }
        ensures now { self.new.now ≡ without row self.old.now }
        ensures later { self.new.later ≡ without row self.old.later ++ row ∷ [] }
        ensures rows { self.new.rows ≡ self.old.rows }
    {
        leave(&mut self.ring, row);
        self.ring.put_last(row);
    }

    // Later becomes now, which is empty.
    pub fn swap(&mut self)
        requires { self.old.now ≡ [] }
        ensures now { self.new.now ≡ self.old.later }
        ensures later { self.new.later ≡ [] }
        ensures rows { self.new.rows ≡ self.old.rows }
    {
        let border = self.ring.border();
        self.ring.take_out(border);
        self.ring.put_last(border);
    }
}
