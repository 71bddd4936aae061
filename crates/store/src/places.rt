// Entries by their places, in a heap: each parent comes out before its children, the entries at 2 * p + 1 and 2 * p + 2.
ghost use Rattle.std.specs.Prelude.{◌≡◌, ◌+◌, ◌*◌, ◌<◌, ◌≤◌, [], length, Some, None, IfSome, option_map};
ghost use Rattle.std.specs.List.Sorted.{IsPermutation};
ghost use Rattle.store.specs.Slots.{entries, filled, SaysAheadAt, IsPlaceOf, IsApart, Seated, IsChild, IsBestChild, IsHeap, IsHeapBut, IsOver, HasHole, Settled, TakesFirst, IsSeating, IsSound, StaysSound};
ghost use Rattle.store.specs.Queue.{queue, first_out, waiting, queue_after, queue_without};
ghost use Rattle.store.specs.Heaps.{LosesOne};

use crate::deal::deal;
use crate::slots::{Entry, Slot};
use kinds::CostKind;
use std::marker::Model;

// The first `len` slots have the entries, and the slot of a row has the place of its entry. The length stands beside the slots,
// since they are lent and nothing is allocated. Contracts see the entries as a list; that they are a heap is asked for and promised
// one by one, since it does not hold in the midst of a walk. A lent slice keeps its length, which each change says as `rows`. Where
// a method begins with `let slots`, the check would ask for an index before it opens the value.
#[derive(Drop)]
pub(crate) struct Places<'a, C: CostKind> {
    slots: &'a mut [Slot<C>],
    len: usize,
}

impl<'a, C: CostKind> Model for Places<'a, C> {
    ghost use Rattle.store.specs.Slots.{Seating, IsSeating, seating};

    ghost Value = { Seating C };

    ghost view = { λ p. seating p.slots.now p.len };

    ghost invariant = { λ p. IsSeating p.slots.now p.len };
}

// Puts an entry at place i, and notes the place for its row.
fn seat<C: CostKind>(slots: &mut [Slot<C>], i: usize, entry: Entry<C>)
    requires i_in { i < length slots.old }
    requires row_in { entry.row < length slots.old }
    requires few { i < 65536 }
    ensures { Seated slots.old slots.new i entry }
{
    // Field by field: copied whole, an entry goes through memory in two overlapping parts, which is slow to read back.
    slots[i].entry = Entry {
        row: entry.row,
        estimate: entry.estimate,
        cost: entry.cost,
        push: entry.push,
    };
    slots[entry.row as usize].place = i as u16;
}

// Whether the entry at i comes out before that at j.
fn ahead<C: CostKind>(slots: &[Slot<C>], i: usize, j: usize) -> bool
    requires i_in { i < length slots.now }
    requires j_in { j < length slots.now }
    ensures { SaysAheadAt C.weight slots.now i j result }
{
    slots[i].entry.comes_before(&slots[j].entry)
}

// The child of place h that comes out first.
fn best_child<C: CostKind>(slots: &[Slot<C>], len: usize, h: usize) -> usize
    requires few { len ≤ 65536 }
    requires fits { len ≤ length slots.now }
    requires one { 2 * h + 1 < len }
    ensures inside { result < len }
    ensures child { IsChild h result }
    ensures best { IsBestChild C.weight slots.now len h result }
{
    let left = 2 * h + 1;
    let right = left + 1;
    if right < len && ahead(slots, right, left) {
        right
    } else {
        left
    }
}

// The walks below move a hole among the first `len` entries, for an entry that is held aside: what moves is written once for each
// level. Contracts see the entries with the hole filled. They have no range: one goes by halves, the other to the better child.

// Takes the hole up past each parent that the entry comes out before, and answers where it then is. `len` is for the contract.
fn rise<C: CostKind>(slots: &mut [Slot<C>], len: usize, from: usize, entry: Entry<C>) -> usize
    requires inside { from < len }
    requires fits { len ≤ length slots.old }
    requires few { length slots.old ≤ 65536 }
    requires hole { HasHole slots.old len from entry }
    requires loose { IsHeapBut C.weight (filled slots.old len from entry) from }
    requires over { IsOver C.weight (filled slots.old len from entry) from }
    ensures inside { result < len }
    ensures hole { HasHole slots.new len result entry }
    ensures heap { IsHeap C.weight (filled slots.new len result entry) }
    ensures same { IsPermutation (filled slots.old len from entry) (filled slots.new len result entry) }
    ensures long { length slots.new ≡ length slots.old }
{
    let mut h = from;
    while h > 0 {
        let up = (h - 1) / 2;
        let above = slots[up].entry;
        if above.comes_before(&entry) {
            return h;
        }
        seat(slots, h, above);
        h = up;
    }
    h
}

// Puts the entry where it belongs above the hole, or there.
fn settle<C: CostKind>(slots: &mut [Slot<C>], len: usize, from: usize, entry: Entry<C>)
    requires inside { from < len }
    requires fits { len ≤ length slots.old }
    requires few { length slots.old ≤ 65536 }
    requires row_in { entry.row < length slots.old }
    requires hole { HasHole slots.old len from entry }
    requires loose { IsHeapBut C.weight (filled slots.old len from entry) from }
    requires over { IsOver C.weight (filled slots.old len from entry) from }
    ensures { Settled C.weight slots.old slots.new len from entry }
{
    let h = rise(slots, len, from, entry);
    seat(slots, h, entry);
}

// Takes the hole down to the bottom, each time to the better child, and puts the entry where it belongs above.
fn sink<C: CostKind>(slots: &mut [Slot<C>], len: usize, from: usize, entry: Entry<C>)
    requires inside { from < len }
    requires fits { len ≤ length slots.old }
    requires few { length slots.old ≤ 65536 }
    requires row_in { entry.row < length slots.old }
    requires hole { HasHole slots.old len from entry }
    requires loose { IsHeapBut C.weight (filled slots.old len from entry) from }
    ensures { Settled C.weight slots.old slots.new len from entry }
{
    let mut h = from;
    while 2 * h + 1 < len {
        let child = best_child(slots, len, h);
        let below = slots[child].entry;
        seat(slots, h, below);
        h = child;
    }
    settle(slots, len, h, entry);
}

// Puts an entry in place of another, where it then belongs.
fn replace<C: CostKind>(slots: &mut [Slot<C>], len: usize, place: usize, entry: Entry<C>)
    requires inside { place < len }
    requires fits { len ≤ length slots.old }
    requires few { length slots.old ≤ 65536 }
    requires row_in { entry.row < length slots.old }
    requires hole { HasHole slots.old len place entry }
    requires heap { IsHeap C.weight (entries slots.old len) }
    ensures { Settled C.weight slots.old slots.new len place entry }
{
    let old = slots[place].entry;
    if entry.comes_before(&old) {
        settle(slots, len, place, entry);
    } else {
        sink(slots, len, place, entry);
    }
}

// Takes the first entry out: the last of them, which has the place `len`, goes where it belongs.
fn drop_first<C: CostKind>(slots: &mut [Slot<C>], len: usize)
    requires kept { IsSeating slots.old (len + 1) }
    requires heap { IsHeap C.weight (entries slots.old (len + 1)) }
    ensures kept { IsSeating slots.new len }
    ensures heap { IsHeap C.weight (entries slots.new len) }
    ensures taken { TakesFirst slots.old slots.new len }
    ensures long { length slots.new ≡ length slots.old }
{
    if len == 0 {
        return;
    }
    let last = slots[len].entry;
    sink(slots, len, 0, last);
}

impl<'a, C: CostKind> Places<'a, C> {
    // No entry has a place.
    pub(crate) fn new(slots: &'a mut [Slot<C>]) -> Places<'a, C>
        requires { length slots.old ≤ 65536 }
        ensures slots { result.slots ≡ slots.old }
        ensures empty { result.entries ≡ [] }
        ensures rows { result.rows ≡ length slots.old }
    {
        Places { slots, len: 0 }
    }

    // Takes every entry out.
    pub(crate) fn clear(&mut self)
        ensures slots { self.new.slots ≡ self.old.slots }
        ensures empty { self.new.entries ≡ [] }
        ensures rows { self.new.rows ≡ self.old.rows }
    {
        self.len = 0;
    }

    // The place of the entry of a row. An `if`: with `then_some` the check does not find the proof alone, and an answer of thirty
    // lines is no plainer.
    #[tactic(auto, using(crate::proofs::Seats::length_entries, crate::proofs::Seats::entries_at, crate::proofs::Seats::place_is))]
    fn find(&self, row: u16) -> Option<usize>
        requires { row < self.now.rows }
        ensures { IsPlaceOf self.now.entries row result }
    {
        let slots = &*self.slots;
        let p = slots[row as usize].place as usize;
        if p < self.len && slots[p].entry.row == row {
            Some(p)
        } else {
            None
        }
    }

    // Pushes an entry of a row that has none.
    fn put_new(&mut self, entry: Entry<C>)
        requires row_in { entry.row < self.old.rows }
        requires sound { IsSound C.weight self.old.entries entry.push }
        requires fresh { IsPlaceOf self.old.entries entry.row None }
        ensures sound { IsSound C.weight self.new.entries (entry.push + 1) }
        ensures queue { queue self.new.entries ≡ queue_after entry (queue self.old.entries) }
        ensures rows { self.new.rows ≡ self.old.rows }
    {
        let last = self.len;
        self.len += 1;
        settle(self.slots, self.len, last, entry);
    }

    // Pushes an entry in place of the row's older one.
    fn put_again(&mut self, place: usize, entry: Entry<C>)
        requires row_in { entry.row < self.old.rows }
        requires sound { IsSound C.weight self.old.entries entry.push }
        requires older { IsPlaceOf self.old.entries entry.row (Some place) }
        ensures sound { IsSound C.weight self.new.entries (entry.push + 1) }
        ensures queue { queue self.new.entries ≡ queue_after entry (queue self.old.entries) }
        ensures rows { self.new.rows ≡ self.old.rows }
    {
        replace(self.slots, self.len, place, entry);
    }

    // Pushes the entry, in place of the row's older one.
    pub(crate) fn put(&mut self, entry: Entry<C>)
        requires row_in { entry.row < self.old.rows }
        requires sound { IsSound C.weight self.old.entries entry.push }
        ensures sound { IsSound C.weight self.new.entries (entry.push + 1) }
        ensures queue { queue self.new.entries ≡ queue_after entry (queue self.old.entries) }
        ensures rows { self.new.rows ≡ self.old.rows }
    {
        match self.find(entry.row) {
            None => self.put_new(entry),
            Some(place) => self.put_again(place, entry),
        }
    }

    // Takes the first entry out.
    #[tactic(auto, using(crate::proofs::Seats::length_entries))]
    pub(crate) fn take_first(&mut self) -> Option<Entry<C>>
        requires apart { IsApart self.old.entries }
        requires heaped { IsHeap C.weight self.old.entries }
        ensures sound { StaysSound C.weight self.old.entries self.new.entries }
        ensures first { option_map waiting result ≡ first_out C.weight (queue self.old.entries) }
        ensures queue { queue self.new.entries ≡ queue_without result (queue self.old.entries) }
        ensures size { LosesOne result self.old.entries self.new.entries }
        ensures inside { IfSome result (λ e. e.row < self.old.rows) }
        ensures few { self.old.rows ≤ 65536 }
        ensures rows { self.new.rows ≡ self.old.rows }
    {
        if self.len == 0 {
            return None;
        }
        let first = self.slots[0].entry;
        self.len -= 1;
        drop_first(self.slots, self.len);
        Some(first)
    }

    // Deals the push numbers of the entries anew, in their order, and answers the first number that is free.
    pub(crate) fn deal(&mut self) -> u64
        requires apart { IsApart self.old.entries }
        requires heaped { IsHeap C.weight self.old.entries }
        ensures sound { IsSound C.weight self.new.entries result }
        ensures queue { queue self.new.entries ≡ queue self.old.entries }
        ensures count { result ≡ length self.old.entries }
        ensures small { result ≤ 65536 }
        ensures rows { self.new.rows ≡ self.old.rows }
    {
        deal(&mut self.slots[..self.len]);
        self.len as u64
    }
}
