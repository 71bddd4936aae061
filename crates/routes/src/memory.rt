// Memory for a planner.
ghost use Rattle.std.specs.Prelude.{◌≡◌, true, false, [], length, IfOk, IfErr, OnOk, MatchResult};
ghost use Rattle.search.specs.History.{History, Law};
ghost use Rattle.planner.specs.declared.refusal.MakeRefusal.TheVariants.{Counts as WrongCounts};
ghost use Rattle.planner.specs.Making.{fit, made_in};
ghost use Rattle.routes.specs.Stock.{stocked};

use crate::desk::Desk;
use deepening::Tried;
use kinds::{CostKind, NodeKind};
use links::lists::{Head, Link};
use planner::{Lent, MakeRefusal, Planner, Sizes, check};
use queues::nodes::Neighbours;
use std::alloc::{AllocError, Global};
use std::marker::Model;
use store::rows::Row;
use store::slots::Slot;

/// What a planner is lent, and room for the nodes of a route. Contracts see it as how much it is.
///
/// # Examples
///
/// ```ignore
/// planner::check(Sizes::of(rows, links))?; // before memory is taken
/// let mut memory = Memory::new(rt.alloc(), Station { id: 0 }, rows, links)?;
/// let mut desk = memory.desk()?;
/// ```
#[derive(Drop)]
pub struct Memory<N, C> {
    pub(crate) rows: Vec<Row<N, C>>,
    pub(crate) slots: Vec<Slot<C>>,
    pub(crate) heads: Vec<Head>,
    pub(crate) only: Vec<u16>,
    pub(crate) sinks: Vec<u16>,
    pub(crate) neighbours: Vec<Neighbours>,
    pub(crate) tried: Vec<Tried>,
    pub(crate) links: Vec<Link>,
    pub(crate) nodes: Vec<N>,
}

impl<N, C> Model for Memory<N, C> {
    ghost use Rattle.std.specs.Prelude.{vec_len};
    ghost use Rattle.routes.specs.Stock.{Stock};

    ghost Value = { Stock };

    ghost view = { λ m. record {
      lent = record {
        rows = vec_len m.rows;
        slots = vec_len m.slots;
        heads = vec_len m.heads;
        only = vec_len m.only;
        sinks = vec_len m.sinks;
        neighbours = vec_len m.neighbours;
        tried = vec_len m.tried;
        links = vec_len m.links;
      };
      nodes = vec_len m.nodes;
    } };
}

// A planner over lent memory, where one can be made over so much. It and `desk` are always inlined, so that a planner is made where it
// stays: moved whole, it is copied by `memcpy`, a name that the archive for C would need from outside for this alone.
#[tactic(auto, using(search::proofs::Histories::histories_fair))]
#[inline(always)]
fn planner_over<'a, N: NodeKind, C: CostKind>(
    lent: Lent<'a, N, C>,
) -> Result<Planner<'a, N, C>, MakeRefusal>
    ensures law { Law C.kind }
    ensures made { MatchResult result
        (λ p. (fit lent.entry ≡ true) × History C.kind [] p × (p ≡ made_in lent.entry))
        (λ e. (fit lent.entry ≡ false) × (e ≡ WrongCounts)) }
{
    check(lent.sizes())?;
    Ok(Planner::make(lent))
}

impl<N: NodeKind, C: CostKind> Memory<N, C> {
    /// Memory of so many rows and links, with what each row needs, and room for routes as long as there are rows; a node fills it.
    ///
    /// # Errors
    ///
    /// `AllocError` where the heap has no memory left. `planner::check` tells beforehand whether a planner is made over so many.
    pub fn new(heap: Global, node: N, rows: usize, links: usize) -> Result<Memory<N, C>, AllocError>
        ensures { IfOk result (λ m. m ≡ stocked rows links rows) }
    {
        Memory::with_room(heap, node, rows, links, rows)
    }

    /// The same, with room for routes of so many nodes.
    ///
    /// # Errors
    ///
    /// `AllocError` where the heap has no memory left.
    pub fn with_room(
        heap: Global,
        node: N,
        rows: usize,
        links: usize,
        nodes: usize,
    ) -> Result<Memory<N, C>, AllocError>
        ensures { IfOk result (λ m. m ≡ stocked rows links nodes) }
    {
        Ok(Memory {
            rows: vec![in heap; Row::new(node, C::zero()); rows]?,
            slots: vec![in heap; Slot::new(); rows]?,
            heads: vec![in heap; Head::new(); rows]?,
            only: vec![in heap; 0; rows]?,
            sinks: vec![in heap; 0; rows]?,
            neighbours: vec![in heap; Neighbours::new(); rows]?,
            tried: vec![in heap; Tried::Nothing; rows]?,
            links: vec![in heap; Link::new(); links]?,
            nodes: vec![in heap; node; nodes]?,
        })
    }

    /// A planner over it, with nothing to hand out, and the room for its routes. With the planner a history begins, and the law holds
    /// of every history.
    ///
    /// # Errors
    ///
    /// `MakeRefusal::Counts` where no planner is made over so many rows and links.
    #[inline(always)]
    pub fn desk(&mut self) -> Result<Desk<'_, N, C>, MakeRefusal>
        ensures law { OnOk result (Law C.kind) }
        ensures begins { IfOk result (λ d. History C.kind [] d.planner) }
        ensures held { IfOk result (λ d. d.planner ≡ made_in self.old.lent) }
        ensures room { IfOk result (λ d. length d.out.now ≡ self.old.nodes) }
        ensures fits { OnOk result (fit self.old.lent ≡ true) }
        ensures refused { IfErr result (λ e. (fit self.old.lent ≡ false) × (e ≡ WrongCounts)) }
    {
        let planner = planner_over(Lent {
            rows: self.rows.as_mut_slice(),
            slots: self.slots.as_mut_slice(),
            heads: self.heads.as_mut_slice(),
            only: self.only.as_mut_slice(),
            sinks: self.sinks.as_mut_slice(),
            neighbours: self.neighbours.as_mut_slice(),
            tried: self.tried.as_mut_slice(),
            links: self.links.as_mut_slice(),
        })?;
        Ok(Desk {
            planner,
            out: self.nodes.as_mut_slice(),
        })
    }
}
