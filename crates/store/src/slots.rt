// What a heap keeps in each slot.
ghost use Rattle.std.specs.Prelude.{◌≡◌};
ghost use Rattle.store.specs.Slots.{SaysAhead};

use kinds::CostKind;

// A row that waits, with its estimate and its cost.
#[derive(Clone, Copy, PartialEq, Eq, Debug)]
pub struct Waiting<C> {
    pub row: u16,
    pub estimate: C,
    pub cost: C,
}

// A row that waits, with its estimate, its cost, and the number of its push; flat, since the heap reads the four one by one.
#[derive(Clone, Copy)]
pub(crate) struct Entry<C> {
    pub(crate) row: u16,
    pub(crate) estimate: C,
    pub(crate) cost: C,
    pub(crate) push: u64,
}

// The row that waits, without the number of its push.
impl<C> From<Entry<C>> for Waiting<C> {
    ghost use Rattle.store.specs.Queue.{waiting};

    ghost from_gives = { λ entry row. row ≡ waiting entry };

    fn from(entry: Entry<C>) -> Waiting<C> {
        Waiting {
            row: entry.row,
            estimate: entry.estimate,
            cost: entry.cost,
        }
    }
}

impl<C: CostKind> Entry<C> {
    // Whether it comes out before another; either answer is right where the two differ in nothing that counts. By hand, since one
    // of the three is ordered backwards, and a tuple with `Reverse` is no plainer.
    pub(crate) fn comes_before(&self, other: &Entry<C>) -> bool
        ensures { SaysAhead C.weight self.now other.now result }
    {
        self.estimate
            .cmp(&other.estimate)
            .then_with(|| other.cost.cmp(&self.cost))
            .then_with(|| self.push.cmp(&other.push))
            .is_le()
    }
}

// An entry; the place of the entry of the row that has this slot's number; and room for a number while pushes are dealt anew.
// The three stand in one slot, since a row has one slot and no more memory is lent.
#[derive(Clone, Copy)]
pub struct Slot<C> {
    pub(crate) entry: Entry<C>,
    pub(crate) place: u16,
    pub(crate) order: u32,
}

impl<C: CostKind> Slot<C> {
    // A slot that nothing was put in.
    pub fn new() -> Slot<C>
        ensures row { result.entry.row ≡ 0 }
        ensures estimate { C.weight result.entry.estimate ≡ 0 }
        ensures cost { C.weight result.entry.cost ≡ 0 }
        ensures push { result.entry.push ≡ 0 }
        ensures place { result.place ≡ 0 }
        ensures order { result.order ≡ 0 }
    {
        Slot {
            entry: Entry {
                row: 0,
                estimate: C::zero(),
                cost: C::zero(),
                push: 0,
            },
            place: 0,
            order: 0,
        }
    }
}
