// What was tried from each node of a path, row by row.
ghost use Rattle.std.specs.Prelude.{◌≡◌, ◌+◌, ◌-◌, ◌<◌, ◌≤◌, [], ◌∷◌, ◌++◌, length, take, slice_index_or, slice_set};
ghost use Rattle.search.specs.Scan.{untried, last};
ghost use Rattle.deepening.specs.Views.{left_of};

use std::marker::Model;

/// Which road of a node was tried last.
#[derive(Clone, Copy, Debug, PartialEq, Eq)]
pub enum Tried {
    /// None was.
    Nothing,
    /// The one of this rank.
    UpTo(u16),
}

/// What was tried from each node of a path: the first `len` rows are in use.
#[derive(Drop)]
pub struct Tries<'a> {
    rows: &'a mut [Tried],
    len: usize,
}

impl<'a> Model for Tries<'a> {
    ghost use Rattle.std.specs.Prelude.{◌≤◌, length};
    ghost use Rattle.deepening.specs.Trails.{Trail};
    ghost use Rattle.deepening.specs.Lefts.{lefts};

    ghost Value = { Trail };

    ghost view = { λ t. record { lefts = lefts t.rows.now t.len; room = length t.rows.now } };

    ghost invariant = { λ t. t.len ≤ length t.rows.now };
}

impl<'a> Tries<'a> {
    /// No row is in use. It takes as many entries as the register has rows.
    #[tactic(auto, unfolding(crate::specs::Lefts::lefts))]
    pub fn new(rows: &'a mut [Tried]) -> Tries<'a>
        ensures empty { result.lefts ≡ [] }
        ensures room { result.room ≡ length rows.old }
    {
        Tries { rows, len: 0 }
    }

    // Drops every row, in constant time.
    #[tactic(auto, unfolding(crate::specs::Lefts::lefts))]
    pub(crate) fn clear(&mut self)
        ensures empty { self.new.lefts ≡ [] }
        ensures room { self.new.room ≡ self.old.room }
    {
        self.len = 0;
    }

    // One more row, of which nothing was tried.
    #[tactic(auto, unfolding(crate::specs::Lefts::lefts))]
    pub(crate) fn add(&mut self)
        requires { length self.old.lefts < self.old.room }
        ensures lefts { self.new.lefts ≡ self.old.lefts ++ untried ∷ [] }
        ensures room { self.new.room ≡ self.old.room }
    {
        self.rows[self.len] = Tried::Nothing;
        self.len += 1;
    }

    // What was tried of a row.
    #[tactic(auto, unfolding(crate::specs::Lefts::lefts))]
    pub(crate) fn tried(&self, row: u16) -> Tried
        requires { row < length self.now.lefts }
        ensures { left_of result ≡ slice_index_or self.now.lefts row untried }
    {
        let rows = &*self.rows;
        rows[row as usize]
    }

    // The one of this rank.is the last that was tried of a row.
    #[tactic(auto, unfolding(crate::specs::Lefts::lefts))]
    pub(crate) fn keep(&mut self, row: u16, rank: u16)
        requires { row < length self.old.lefts }
        ensures lefts { self.new.lefts ≡ slice_set self.old.lefts row (last rank) }
        ensures room { self.new.room ≡ self.old.room }
    {
        let rows = &mut *self.rows;
        rows[row as usize] = Tried::UpTo(rank);
    }

    // Takes the last row back.
    #[tactic(auto, unfolding(crate::specs::Lefts::lefts))]
    pub(crate) fn take_back(&mut self)
        requires { 0 < length self.old.lefts }
        ensures lefts { self.new.lefts ≡ take (length self.old.lefts - 1) self.old.lefts }
        ensures room { self.new.room ≡ self.old.room }
    {
        self.len -= 1;
    }
}
