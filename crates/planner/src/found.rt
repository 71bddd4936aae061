// The rows that a search has found: nodes by number, each with the least cost that it was reached at, and its parents.
ghost use Rattle.std.specs.Prelude.{◌≡◌, ℕ, ◌+◌, ◌<◌, ◌≤◌, true, false, [], ◌∷◌, ◌++◌, length, if◌then◌else◌, ◌==◌, nat_lt, slice_index_or, slice_set, Some, None};
ghost use Rattle.search.specs.Members.{has};
ghost use Rattle.search.specs.Rows.{no_row, find};
ghost use Rattle.search.specs.Roads.{is_weightless, from_here};
ghost use Rattle.planner.specs.Standing.{keeps_of, After, has_links, is_tied, tied_rows};
ghost use Rattle.planner.specs.Opens.{open_of};

use crate::open::Open;
use kinds::{CostKind, NodeKind};
use links::parents::{Keeps, Parents};
use std::marker::Model;
use store::register::Register;

// The rows in the order of finding, in which nodes stand with their costs, and the parents of each.
#[derive(Drop)]
pub(crate) struct Found<'a, N: NodeKind, C: CostKind> {
    pub(crate) register: Register<'a, N, C>,
    pub(crate) parents: Parents<'a>,
}

impl<'a, N: NodeKind, C: CostKind> Model for Found<'a, N, C> {
    ghost use Rattle.planner.specs.Standing.{Standing, standing, IsPaired};

    ghost Value = { Standing };

    ghost view = { λ f. standing N.key C.weight f.register f.parents };

    ghost invariant = { λ f. IsPaired f.register f.parents };
}

impl<'a, N: NodeKind, C: CostKind> Found<'a, N, C> {
    // Drops every row; the start takes row 0 at cost zero, with no parent.
    #[tactic(auto, using(crate::proofs::Maps::lists))]
    pub(crate) fn begin(&mut self, start: N, keeps: Keeps)
        ensures rows { self.new.rows ≡ record { key = N.key start; cost = 0; parents = [] } ∷ [] }
        ensures keeps { self.new.keeps ≡ keeps_of keeps }
        ensures some { 0 < self.new.room }
        ensures room { self.new.room ≡ self.old.room }
        ensures links { self.new.links ≡ self.old.links }
    {
        self.register.clear();
        self.parents.begin(keeps);
        let _ = self.register.add(start, C::zero());
        self.parents.start_list();
    }

    // How many rows there are.
    #[tactic(auto, using(crate::proofs::Maps::lists))]
    pub(crate) fn len(&self) -> usize
        ensures count { result ≡ length self.now.rows }
        ensures fits { length self.now.rows ≤ self.now.room }
        ensures few { self.now.room ≤ 32768 }
    {
        self.register.len()
    }

    // Whether no row is left.
    #[tactic(auto, using(crate::proofs::Maps::lists))]
    pub(crate) fn is_full(&self) -> bool
        ensures { result ≡ (if nat_lt (length self.now.rows) self.now.room then false else true) }
    {
        self.register.is_full()
    }

    // The row of the node's key.
    #[tactic(auto, using(crate::proofs::Maps::lists))]
    pub(crate) fn find(&self, node: &N) -> Option<u16>
        ensures { result ≡ find (N.key node.now) self.now.rows }
    {
        self.register.find(node)
    }

    // The node of a row.
    #[tactic(auto, using(crate::proofs::Maps::lists))]
    pub(crate) fn node(&self, row: u16) -> N
        requires { row < length self.now.rows }
        ensures { N.key result ≡ (slice_index_or self.now.rows row no_row).key }
    {
        self.register.node(row)
    }

    // The cost that a row was reached at.
    #[tactic(auto, using(crate::proofs::Maps::lists))]
    pub(crate) fn cost(&self, row: u16) -> C
        requires { row < length self.now.rows }
        ensures { C.weight result ≡ (slice_index_or self.now.rows row no_row).cost }
    {
        self.register.value(row)
    }

    // Whether a road that weighs so much is refused.
    #[tactic(auto, using(crate::proofs::Maps::lists))]
    pub(crate) fn is_weightless(&self, step: C) -> bool
        ensures { result ≡ is_weightless self.now.keeps (C.weight step) }
    {
        match self.parents.keeps() {
            Keeps::One => false,
            Keeps::All => step <= C::zero(),
        }
    }

    // The node that the road leads to takes the next row, reached by this road; and whether a link was free for that.
    #[tactic(auto, using(crate::proofs::Maps::lists))]
    pub(crate) fn add(&mut self, road: &Open<N, C>) -> bool
        requires room { length self.old.rows < self.old.room }
        requires parent { road.now.row < length self.old.rows }
        requires fresh { find (N.key road.now.node) self.old.rows ≡ None }
        ensures after { After self.old self.new }
        ensures answer { result ≡ has_links self.old.keeps self.old.links (self.old.rows ++ from_here (open_of N.key C.weight road.now) ∷ []) }
        ensures rows { result ≡ true → self.new.rows ≡ self.old.rows ++ from_here (open_of N.key C.weight road.now) ∷ [] }
    {
        let row = self.register.len() as u16;
        let _ = self.register.add(road.node, road.sum);
        self.parents.start_list();
        self.parents.replace(row, road.row)
    }

    // A row is reached by this road, and no longer from its parents so far; and whether a link was then free.
    #[tactic(auto, using(crate::proofs::Maps::lists))]
    pub(crate) fn cheapen(&mut self, row: u16, road: &Open<N, C>) -> bool
        requires parent { road.now.row < length self.old.rows }
        requires there { find (N.key road.now.node) self.old.rows ≡ Some row }
        ensures after { After self.old self.new }
        ensures answer { result ≡ has_links self.old.keeps self.old.links (slice_set self.old.rows row (from_here (open_of N.key C.weight road.now))) }
        ensures fits { length self.new.rows ≤ self.new.room }
        ensures rows { result ≡ true → self.new.rows ≡ slice_set self.old.rows row (from_here (open_of N.key C.weight road.now)) }
    {
        self.register.set_value(row, road.sum);
        self.parents.replace(row, road.row)
    }

    // A row is reached from one more, if all parents are kept and this is none of them yet; and whether a link was free for that.
    #[tactic(auto, using(crate::proofs::Maps::lists))]
    pub(crate) fn tie(&mut self, row: u16, parent: u16) -> bool
        requires parent { parent < length self.old.rows }
        requires inside { row < length self.old.rows }
        ensures after { After self.old self.new }
        ensures answer { result ≡ is_tied self.old.keeps self.old.links parent row self.old.rows }
        ensures rows { result ≡ true → self.new.rows ≡ tied_rows self.old.keeps parent row self.old.rows }
    {
        match self.parents.keeps() {
            Keeps::One => true,
            Keeps::All => self.parents.contains(row, parent) || self.parents.add(row, parent),
        }
    }
}
