// What a planner is left with when a search has ended.
ghost use Rattle.std.specs.Prelude.{◌≡◌, ◌<◌, ◌≤◌, [], length};
ghost use Rattle.search.specs.Outcome.{routes};
ghost use Rattle.search.specs.Calls.{answer};
ghost use Rattle.planner.specs.Standing.{HasMemoryOf};
ghost use Rattle.planner.specs.Turns.{end_of, EndsWell};
ghost use Rattle.planner.specs.Pending.{pending_of, IsReady, answer_of, BagEndsWell};
ghost use Rattle.planner.specs.Bags.{bag_end};

use crate::found::Found;
use crate::goal::Goal;
use kinds::{CostKind, NodeKind};
use listing::sinks::Sinks;
use search::SeekRefusal;

// Nothing to hand out.
pub(crate) fn drop_all<N: NodeKind, C: CostKind>(found: &mut Found<'_, N, C>, sinks: &mut Sinks)
    ensures ready { IsReady found.new sinks.new.sinks }
    ensures come { pending_of found.new sinks.new.sinks ≡ [] }
    ensures memory { HasMemoryOf found.old found.new }
    ensures places { sinks.new.places ≡ sinks.old.places }
{
    found.clear();
    sinks.clear();
}

// The one route to a goal that was taken, or nothing to hand out; and the goal's cost.
pub(crate) fn settle_one<N: NodeKind, C: CostKind>(
    found: &mut Found<'_, N, C>,
    sinks: &mut Sinks,
    end: Result<Option<Goal<C>>, SeekRefusal>,
) -> Result<Option<C>, SeekRefusal>
    requires well { EndsWell found.old.rows end }
    requires places { found.old.room ≡ sinks.old.places }
    ensures ready { IsReady found.new sinks.new.sinks }
    ensures come { pending_of found.new sinks.new.sinks ≡ routes (end_of C.weight end found.old.rows) }
    ensures answer { answer_of C.weight result ≡ answer (end_of C.weight end found.old.rows) }
    ensures memory { HasMemoryOf found.old found.new }
    ensures places { sinks.new.places ≡ sinks.old.places }
{
    match end {
        Ok(Some(Goal { row, cost })) => {
            sinks.clear();
            found.make_ready_for(sinks, row);
            Ok(Some(cost))
        }
        Ok(None) => {
            drop_all(found, sinks);
            Ok(None)
        }
        Err(refusal) => {
            drop_all(found, sinks);
            Err(refusal)
        }
    }
}

// Every route to the goals that are in the sinks, or nothing to hand out; and their cost.
pub(crate) fn settle_all<N: NodeKind, C: CostKind>(
    found: &mut Found<'_, N, C>,
    sinks: &mut Sinks,
    end: Result<Option<C>, SeekRefusal>,
) -> Result<Option<C>, SeekRefusal>
    requires well { BagEndsWell found.old.rows sinks.old.sinks end }
    ensures ready { IsReady found.new sinks.new.sinks }
    ensures come { pending_of found.new sinks.new.sinks ≡ routes (bag_end C.weight end found.old.rows sinks.old.sinks) }
    ensures answer { answer_of C.weight result ≡ answer (bag_end C.weight end found.old.rows sinks.old.sinks) }
    ensures memory { HasMemoryOf found.old found.new }
    ensures places { sinks.new.places ≡ sinks.old.places }
{
    match end {
        Ok(Some(cost)) => {
            found.make_ready(sinks);
            Ok(Some(cost))
        }
        Ok(None) => {
            drop_all(found, sinks);
            Ok(None)
        }
        Err(refusal) => {
            drop_all(found, sinks);
            Err(refusal)
        }
    }
}
