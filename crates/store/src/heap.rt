// A binary heap with at most one entry for a row: a list of what waits, in the order of the pushes.
ghost use Rattle.std.specs.Prelude.{◌≡◌, ◌<◌, ◌≤◌, ◌==◌, [], length, IfSome};
ghost use Rattle.store.specs.Heaps.{greatest_count, next_after, LosesOne};
ghost use Rattle.store.specs.Queue.{pushed, first_out, left};

use crate::places::Places;
use crate::slots::{Entry, Slot, Waiting};
use kinds::CostKind;
use std::marker::Model;

// A heap over lent slots; `count` is the number of the next push. That slots are few is asked of the slice, which is no type of
// ours, and that they stay as many each change says.
#[derive(Drop)]
pub struct Heap<'a, C: CostKind> {
    places: Places<'a, C>,
    count: u64,
}

impl<'a, C: CostKind> Model for Heap<'a, C> {
    ghost use Rattle.store.specs.Slots.{IsSound};
    ghost use Rattle.store.specs.Queue.{queue};
    ghost use Rattle.store.specs.Heaps.{Waits};

    ghost Value = { Waits C };

    ghost view = { λ h. record { slots = h.places.slots; waits = queue h.places.entries; rows = h.places.rows; next = h.count } };

    ghost invariant = { λ h. IsSound C.weight h.places.entries h.count };
}

// Whether no push can have this number, since none comes after it.
fn is_spent(count: u64) -> bool
    ensures { result ≡ (count == greatest_count) }
{
    count == u64::MAX
}

impl<'a, C: CostKind> Heap<'a, C> {
    // A heap with no entry; the slots that are lent are not written to.
    pub fn new(slots: &'a mut [Slot<C>]) -> Heap<'a, C>
        requires { length slots.old ≤ 65536 }
        ensures slots { result.slots ≡ slots.old }
        ensures empty { result.waits ≡ [] }
        ensures rows { result.rows ≡ length slots.old }
        ensures next { result.next ≡ 0 }
    {
        Heap::counting_from(slots, 0)
    }

    // A heap with no entry whose next push has this number; it differs from a new one in nothing but when push numbers
    // are dealt anew, which a test can so bring about.
    #[tactic(auto, using(crate::proofs::Turns::apart_none), unfolding(crate::specs::Queue::queue))]
    pub fn counting_from(slots: &'a mut [Slot<C>], count: u64) -> Heap<'a, C>
        requires { length slots.old ≤ 65536 }
        ensures slots { result.slots ≡ slots.old }
        ensures empty { result.waits ≡ [] }
        ensures rows { result.rows ≡ length slots.old }
        ensures next { result.next ≡ count }
    {
        Heap {
            places: Places::new(slots),
            count,
        }
    }

    // Takes every entry out, in constant time.
    #[tactic(auto, using(crate::proofs::Turns::apart_none), unfolding(crate::specs::Queue::queue))]
    pub fn clear(&mut self)
        ensures slots { self.new.slots ≡ self.old.slots }
        ensures empty { self.new.waits ≡ [] }
        ensures rows { self.new.rows ≡ self.old.rows }
        ensures next { self.new.next ≡ 0 }
    {
        self.places.clear();
        self.count = 0;
    }

    // Pushes an entry for a row, in place of the row's older one.
    pub fn push(&mut self, row: u16, estimate: C, cost: C)
        requires { row < self.old.rows }
        ensures waits { self.new.waits ≡ pushed self.old.waits row estimate cost }
        ensures rows { self.new.rows ≡ self.old.rows }
        ensures next { self.new.next ≡ next_after self.old.next (length self.old.waits) }
    {
        if is_spent(self.count) {
            self.count = self.places.deal();
        }
        self.places.put(Entry {
            row,
            estimate,
            cost,
            push: self.count,
        });
        self.count += 1;
    }

    // Takes out the entry that comes first.
    #[tactic(auto, using(crate::proofs::Turns::length_queue))]
    pub fn pop(&mut self) -> Option<Waiting<C>>
        ensures size { LosesOne result self.old.waits self.new.waits }
        ensures first { result ≡ first_out C.weight self.old.waits }
        ensures waits { self.new.waits ≡ left result self.old.waits }
        ensures inside { IfSome result (λ w. w.row < self.old.rows) }
        ensures few { self.old.rows ≤ 65536 }
        ensures rows { self.new.rows ≡ self.old.rows }
        ensures next { self.new.next ≡ self.old.next }
    {
        self.places.take_first().map(Waiting::from)
    }
}
