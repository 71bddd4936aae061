// Distinct nodes in an order, from which any node goes, and to whose front and back any comes, in constant time: a ring of rows and
// of a border, which has the number after the last row's and the end's.
ghost use Rattle.std.specs.Prelude.{◌≡◌, ℕ, ◌+◌, ◌<◌, ◌≤◌, ◌⊎◌, [], ◌∷◌, ◌++◌, length, MatchBool};
ghost use Rattle.queues.specs.Lists.{In, without, head_or};
ghost use Rattle.queues.specs.Nodes.{Marked, after, before};
ghost use Rattle.queues.specs.Rings.{alone_at};

use crate::nodes::{Neighbours, node, set_after, tie, tie_end_to};
use std::marker::Model;

// What stands in place of the next row at a row that is in no queue.
const LOOSE: u16 = u16::MAX;

// The ring over lent rows. The end and the border stand beside them, since no more is lent. Rows from `used` on have not been in the
// ring since the last clear, and what they say is not believed.
#[derive(Drop)]
pub(crate) struct Ring<'a> {
    rows: &'a mut [Neighbours],
    ends: [Neighbours; 2],
    used: u16,
}

impl<'a> Model for Ring<'a> {
    ghost use Rattle.std.specs.Prelude.{◌++◌, length};
    ghost use Rattle.queues.specs.Rings.{Order, Kept, ordered};

    ghost Value = { Order };

    ghost view = { λ r. ordered (r.rows.now ++ r.ends) (length r.rows.now) };

    ghost invariant = { λ r. Kept (r.rows.now ++ r.ends) (length r.rows.now) r.used };
}

// The end and the border of a ring with no row.
fn alone(end: u16) -> [Neighbours; 2]
    requires { end ≤ 32768 }
    ensures { result ≡ alone_at end }
{
    let border = end + 1;
    [
        Neighbours {
            before: border,
            after: border,
        },
        Neighbours {
            before: end,
            after: end,
        },
    ]
}

// Marks the rows from `used` up to row j as in no queue, and answers how many rows are then in use. Where rows come in the order of
// their numbers it marks one at most.
#[tactic(auto, unfolding(crate::specs::Nodes::after, crate::specs::Nodes::before))]
fn admit(rows: &mut [Neighbours], used: u16, j: u16) -> u16
    requires few { used ≤ length rows.old }
    requires wide { length rows.old ≤ 32768 }
    ensures more { used ≤ result }
    ensures few { result ≤ length rows.old }
    ensures enters { j < length rows.old → j < result }
    ensures marked { Marked rows.old rows.new used result }
{
    if j < used || j as usize >= rows.len() {
        return used;
    }
    for row in used..j + 1 {
        rows[row as usize].after = LOOSE;
    }
    j + 1
}

impl<'a> Ring<'a> {
    // The border alone.
    pub(crate) fn new(rows: &'a mut [Neighbours]) -> Ring<'a>
        requires { length rows.old ≤ 32768 }
        ensures order { result.order ≡ (length rows.old + 1) ∷ [] }
        ensures rows { result.rows ≡ length rows.old }
    {
        let ends = alone(rows.len() as u16);
        Ring {
            rows,
            ends,
            used: 0,
        }
    }

    // Takes every row out, in constant time.
    pub(crate) fn clear(&mut self)
        ensures order { self.new.order ≡ (self.old.rows + 1) ∷ [] }
        ensures rows { self.new.rows ≡ self.old.rows }
    {
        self.ends = alone(self.rows.len() as u16);
        self.used = 0;
    }

    // The border's number.
    pub(crate) fn border(&self) -> u16
        ensures { result ≡ self.now.rows + 1 }
    {
        self.rows.len() as u16 + 1
    }

    // The first node.
    pub(crate) fn first(&self) -> u16
        ensures { result ≡ head_or self.now.rows self.now.order }
    {
        node(self.rows, &self.ends, self.rows.len() as u16).after
    }

    // Whether a row is in the ring.
    pub(crate) fn holds(&self, row: u16) -> bool
        requires { row < self.now.rows }
        ensures { MatchBool result (In row self.now.order) (In row self.now.order → ⊥) }
    {
        row < self.used && node(self.rows, &self.ends, row).after != LOOSE
    }

    // Takes a node out.
    pub(crate) fn take_out(&mut self, j: u16)
        requires { In j self.old.order }
        ensures order { self.new.order ≡ without j self.old.order }
        ensures rows { self.new.rows ≡ self.old.rows }
    {
        let rows = &mut *self.rows;
        let ends = &mut self.ends;
        let here = node(rows, ends, j);
        tie(rows, ends, here.before, here.after);
        set_after(rows, ends, j, LOOSE);
    }

    // Puts a row in front of all.
    pub(crate) fn put_first(&mut self, j: u16)
        requires row { j < self.old.rows }
        requires absent { In j self.old.order → ⊥ }
        ensures order { self.new.order ≡ j ∷ self.old.order }
        ensures rows { self.new.rows ≡ self.old.rows }
    {
        let end = self.rows.len() as u16;
        self.used = admit(self.rows, self.used, j);
        let rows = &mut *self.rows;
        let ends = &mut self.ends;
        let first = node(rows, ends, end).after;
        tie_end_to(rows, ends, end, j);
        tie(rows, ends, j, first);
    }

    // Puts a node behind all.
    pub(crate) fn put_last(&mut self, j: u16)
        requires node { (j < self.old.rows) ⊎ (j ≡ self.old.rows + 1) }
        requires absent { In j self.old.order → ⊥ }
        ensures order { self.new.order ≡ self.old.order ++ j ∷ [] }
        ensures rows { self.new.rows ≡ self.old.rows }
    {
        let end = self.rows.len() as u16;
        self.used = admit(self.rows, self.used, j);
        let rows = &mut *self.rows;
        let ends = &mut self.ends;
        let last = node(rows, ends, end).before;
        tie(rows, ends, last, j);
        tie(rows, ends, j, end);
    }
}
