// The making of a planner, in two calls: one checks counts, and one makes.
ghost use Rattle.std.specs.Prelude.{◌≡◌, true, [], if◌then◌else◌, Ok, Err};
ghost use Rattle.search.specs.History.{History, Law};
ghost use Rattle.planner.specs.declared.refusal.MakeRefusal.TheVariants.{Counts};
ghost use Rattle.planner.specs.Making.{even, fit, made_in};

use crate::found::Found;
use crate::lent::{Lent, Sizes};
use crate::planner_type::Planner;
use crate::refusal::MakeRefusal;
use crate::two_queues::TwoQueues;
use deepening::Tries;
use kinds::{CostKind, NodeKind};
use listing::sinks::Sinks;
use store::heap::Heap;

/// The most rows that a planner is made over.
pub const MOST_ROWS: usize = 32768;

/// The most links that a planner is made over.
pub const MOST_LINKS: usize = 65535;

// Whether there are as many entries of each other part as there are rows.
fn even(sizes: Sizes) -> bool
    ensures { result ≡ even sizes }
{
    let Sizes {
        rows,
        slots,
        heads,
        only,
        sinks,
        neighbours,
        tried,
        ..
    } = sizes;
    slots == rows
        && heads == rows
        && only == rows
        && sinks == rows
        && neighbours == rows
        && tried == rows
}

/// Whether a planner can be made over so much memory: counts alone, for a caller who has no memory yet. No memory is touched.
///
/// # Errors
///
/// `MakeRefusal::Counts` where the rows are not 1 to 32,768, or the links more than 65,535, or a part has not as many entries as
/// there are rows.
///
/// # Examples
///
/// ```ignore
/// check(Sizes::of(512, 2000))?;
/// ```
pub fn check(sizes: Sizes) -> Result<(), MakeRefusal>
    ensures { result ≡ (if fit sizes then Ok tt else Err Counts) }
{
    if !(1..=MOST_ROWS).contains(&sizes.rows) || sizes.links > MOST_LINKS || !even(sizes) {
        return Err(MakeRefusal::Counts);
    }
    Ok(())
}

impl<'a, N: NodeKind, C: CostKind> Planner<'a, N, C> {
    /// A planner over this memory, with nothing to hand out. What the memory holds beforehand does not matter. With it a
    /// history begins, and the law holds of every history.
    #[tactic(auto, using(std::proofs::lemmas::Bool::Decides::nat_tests, search::proofs::Histories::histories_fair, search::specs::History::made))]
    pub fn make(lent: Lent<'a, N, C>) -> Planner<'a, N, C>
        requires { fit lent ≡ true }
        ensures law { Law C.kind }
        ensures begins { History C.kind [] result }
        ensures held { result ≡ made_in lent.entry }
    {
        Planner {
            found: Found::over(lent.rows, lent.heads, lent.only, lent.links),
            sinks: Sinks::new(lent.sinks),
            heap: Heap::new(lent.slots),
            queues: TwoQueues::over(lent.neighbours),
            tries: Tries::new(lent.tried),
        }
    }
}
