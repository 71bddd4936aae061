// What the trials share: a chart, a planner, and the printing of answers.
ghost use Rattle.std.specs.Prelude.{◌≡◌, ◌≢◌, true, false, [], length, Ok, IfOk, OnOk, OnErr};
ghost use Rattle.chart.specs.Checked.{checked};
ghost use Rattle.search.specs.History.{History};
ghost use Rattle.planner.specs.Making.{fit, made_in};

use anyhow::anyhow;
use chart::Chart;
use kinds::{CostKind, NodeKind};
use routes::{Desk, Memory};
use search::SeekRefusal;
use std::fmt;

// The chart that stands in the bytes.
pub fn chart_in(bytes: &[u8]) -> anyhow::Result<Chart>
    ensures chart { IfOk result (λ chart. (checked bytes.now ≡ Ok tt) × (chart.bytes.now ≡ bytes.now)) }
    ensures refused { OnErr result (checked bytes.now ≢ Ok tt) }
{
    Chart::try_from(bytes).map_err(|refusal| anyhow!(
        "the chart is refused by {}",
        u8::from(refusal)
    ))
}

// A planner over the memory, with room for its routes.
pub fn desk_over<N: NodeKind, C: CostKind>(memory: &mut Memory<N, C>) -> anyhow::Result<Desk<N, C>>
    ensures begins { IfOk result (λ desk. History C.kind [] desk.planner) }
    ensures held { IfOk result (λ desk. desk.planner ≡ made_in memory.old.lent) }
    ensures room { IfOk result (λ desk. length desk.out.now ≡ memory.old.nodes) }
    ensures fits { OnOk result (fit memory.old.lent ≡ true) }
    ensures refused { OnErr result (fit memory.old.lent ≡ false) }
{
    memory.desk().map_err(|refusal| anyhow!("the planner is refused by {}", u8::from(refusal)))
}

// What a search answers, as it is printed: a cost, no route, or a refusal with its values.
#[derive(Clone, Copy)]
pub struct Answer<C> {
    pub found: Result<Option<C>, SeekRefusal>,
}

impl<C: fmt::Display> fmt::Display for Answer<C> {
    fn fmt<W: fmt::Write>(&self, f: &mut fmt::Formatter<W>) -> fmt::Result {
        match &self.found {
            Err(refusal) => write!(f, "refused {}: {refusal:?}", u8::from(*refusal)),
            Ok(None) => write!(f, "none"),
            Ok(Some(cost)) => write!(f, "{cost}"),
        }
    }
}
