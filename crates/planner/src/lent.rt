// Memory that is lent to a planner.
ghost use Rattle.std.specs.Prelude.{◌≡◌};
ghost use Rattle.planner.specs.Making.{sizes_of};

use deepening::Tried;
use links::lists::{Head, Link};
use queues::nodes::Neighbours;
use std::marker::Model;
use store::rows::Row;
use store::slots::Slot;

/// How much memory a planner is made over: how many entries of each part.
#[derive(Clone, Copy, PartialEq, Eq, Debug)]
pub struct Sizes {
    pub rows: usize,
    pub slots: usize,
    pub heads: usize,
    pub only: usize,
    pub sinks: usize,
    pub neighbours: usize,
    pub tried: usize,
    pub links: usize,
}

impl Sizes {
    /// So many rows with what each of them needs, and so many links.
    pub fn of(rows: usize, links: usize) -> Sizes
        ensures { result ≡ sizes_of rows links }
    {
        Sizes {
            rows,
            slots: rows,
            heads: rows,
            only: rows,
            sinks: rows,
            neighbours: rows,
            tried: rows,
            links,
        }
    }
}

/// Memory that is lent to a planner for life: rows and links, and of each other part as many entries as there are rows.
///
/// The parts are slices of their own, since what borrows one cannot borrow another. What they hold beforehand does not
/// matter. Contracts see it as how much it is.
#[derive(Drop)]
pub struct Lent<'a, N, C> {
    /// The nodes that a search finds, with their costs.
    pub rows: &'a mut [Row<N, C>],
    /// The heap's.
    pub slots: &'a mut [Slot<C>],
    /// The lists of parents, which stand in links, and a row's parent where it has one alone.
    pub heads: &'a mut [Head],
    pub only: &'a mut [u16],
    /// The rows that routes end at.
    pub sinks: &'a mut [u16],
    /// The two queues of fringe.
    pub neighbours: &'a mut [Neighbours],
    /// What idastar has tried of each row.
    pub tried: &'a mut [Tried],
    pub links: &'a mut [Link],
}

impl<'a, N, C> Model for Lent<'a, N, C> {
    ghost use Rattle.std.specs.Prelude.{length};
    ghost use Rattle.planner.specs.declared.lent.Sizes.{Sizes};

    ghost Value = { Sizes };

    ghost view = { λ l. record { rows = length l.rows.now; slots = length l.slots.now; heads = length l.heads.now; only = length l.only.now; sinks = length l.sinks.now; neighbours = length l.neighbours.now; tried = length l.tried.now; links = length l.links.now } };
}

impl<'a, N, C> Lent<'a, N, C> {
    /// How much memory it is.
    pub fn sizes(&self) -> Sizes
        ensures { result ≡ self.now }
    {
        Sizes {
            rows: self.rows.len(),
            slots: self.slots.len(),
            heads: self.heads.len(),
            only: self.only.len(),
            sinks: self.sinks.len(),
            neighbours: self.neighbours.len(),
            tried: self.tried.len(),
            links: self.links.len(),
        }
    }
}
