// The rows of a search between two calls: none at first, and then those that routes are handed out of.
ghost use Rattle.std.specs.Prelude.{◌≡◌, ℕ, ◌<◌, ◌≤◌, [], length};
ghost use Rattle.search.specs.Roads.{one};
ghost use Rattle.search.specs.Members.{In};
ghost use Rattle.search.specs.Rows.{latest_first, routes_to};
ghost use Rattle.search.specs.Calls.{handed, kept};
ghost use Rattle.listing.specs.Handing.{Falling, parents_in, given_of, Within, Untouched};
ghost use Rattle.planner.specs.Standing.{HasMemoryOf};
ghost use Rattle.planner.specs.Pending.{pending_of, IsReady};

use crate::found::Found;
use kinds::{CostKind, NodeKind};
use links::lists::{Head, Link};
use links::parents::{Keeps, Parents};
use listing::hand_out;
use listing::sinks::Sinks;
use search::HandOutRefusal;
use store::register::Register;
use store::rows::Row;

impl<'a, N: NodeKind, C: CostKind> Found<'a, N, C> {
    // No row, over lent memory.
    #[tactic(auto, using(crate::proofs::Maps::lists))]
    pub(crate) fn over(
        rows: &'a mut [Row<N, C>],
        heads: &'a mut [Head],
        only: &'a mut [u16],
        links: &'a mut [Link],
    ) -> Found<'a, N, C>
        requires some { 0 < length rows.old }
        requires few { length rows.old ≤ 32768 }
        requires heads { length heads.old ≡ length rows.old }
        requires only { length only.old ≡ length rows.old }
        requires links { length links.old ≤ 65535 }
        ensures rows { result.rows ≡ [] }
        ensures left { result.left ≡ [] }
        ensures room { result.room ≡ length rows.old }
        ensures links { result.links ≡ length links.old }
    {
        Found {
            register: Register::new(rows),
            parents: Parents::new(heads, only, links),
        }
    }

    // Drops every row, in constant time.
    #[tactic(auto, using(crate::proofs::Maps::lists))]
    pub(crate) fn clear(&mut self)
        ensures rows { self.new.rows ≡ [] }
        ensures left { self.new.left ≡ [] }
        ensures memory { HasMemoryOf self.old self.new }
    {
        self.register.clear();
        self.parents.begin(Keeps::One);
    }

    // Every route to the sinks is to come.
    #[tactic(auto, using(crate::proofs::Maps::lists, crate::proofs::Shown::columns))]
    pub(crate) fn make_ready(&mut self, sinks: &Sinks)
        requires falling { Falling (parents_in self.old.rows) }
        requires inside { (s : ℕ) → In s sinks.now.sinks → s < length self.old.rows }
        ensures ready { IsReady self.new sinks.now.sinks }
        ensures come { pending_of self.new sinks.now.sinks ≡ latest_first (routes_to self.old.rows) sinks.now.sinks }
        ensures memory { HasMemoryOf self.old self.new }
    {
        hand_out::begin(&mut self.parents, sinks);
    }

    // Every route to a row is to come.
    #[tactic(auto, using(crate::proofs::Maps::lists, crate::proofs::Shown::columns))]
    pub(crate) fn make_ready_for(&mut self, sinks: &mut Sinks, row: u16)
        requires falling { Falling (parents_in self.old.rows) }
        requires inside { row < length self.old.rows }
        requires none { sinks.old.sinks ≡ [] }
        requires places { self.old.room ≡ sinks.old.places }
        ensures ready { IsReady self.new sinks.new.sinks }
        ensures come { pending_of self.new sinks.new.sinks ≡ routes_to self.old.rows row }
        ensures memory { HasMemoryOf self.old self.new }
        ensures places { sinks.new.places ≡ sinks.old.places }
    {
        let parents = &mut self.parents;
        sinks.join(row);
        hand_out::begin(parents, sinks);
    }

    // Writes the nodes of the next route into the first entries, and answers how many there are; or answers that no route is left.
    #[tactic(auto, using(crate::proofs::Maps::lists, crate::proofs::Shown::columns))]
    pub(crate) fn hand_out(
        &mut self,
        sinks: &mut Sinks,
        out: &mut [N],
    ) -> Result<Option<usize>, HandOutRefusal>
        requires ready { IsReady self.old sinks.old.sinks }
        ensures ready { IsReady self.new sinks.new.sinks }
        ensures gives { given_of N.key result out.new ≡ handed (pending_of self.old sinks.old.sinks) (length out.old) }
        ensures leaves { pending_of self.new sinks.new.sinks ≡ kept (pending_of self.old sinks.old.sinks) (length out.old) }
        ensures within { Within result (length out.old) }
        ensures rest { Untouched result out.old out.new }
        ensures memory { HasMemoryOf self.old self.new }
        ensures places { sinks.new.places ≡ sinks.old.places }
    {
        hand_out::hand_out(&self.register, &mut self.parents, sinks, out)
    }
}
