// A batch of searches by one planner.
ghost use Rattle.std.specs.Prelude.{◌≡◌, ◌-◌, map, length, MatchResult};
ghost use Rattle.routes.specs.Stock.{stocked};
ghost use Rattle.routes.specs.Took.{came_in, Within};
ghost use Rattle.capi.specs.declared.failure.Failure.TheVariants.{NoMemory};
ghost use Rattle.capi.specs.Codes.{method_numbered, told_of};
ghost use Rattle.capi.specs.Tells.{station_key, trims_weight, OneSeek, LastSeek, Ran, Tells};

use crate::failure::Failure;
use chart::Chart;
use kinds::{Station, Trims};
use planner::{Planner, Sizes, check};
use routes::{Desk, Memory, RouteRefusal, Taken};
use search::Method;
use std::alloc::Global;

// The search of a number: a caller in C names it so.
fn numbered(method: u32) -> Option<Method>
    ensures { result ≡ method_numbered method }
{
    match method {
        0 => Some(Method::Dijkstra),
        1 => Some(Method::Astar),
        2 => Some(Method::AstarBag),
        3 => Some(Method::Fringe),
        4 => Some(Method::Idastar),
        _ => None,
    }
}

// The station that every search begins at.
const START: Station = Station { id: 0 };

// A search over a chart, and how often it runs.
#[derive(Clone, Copy)]
struct Batch<'a> {
    method: Method,
    chart: Chart<'a>,
    times: u32,
}

impl<'a> Batch<'a> {
    // Seeks once, and takes the route.
    fn once(
        &self,
        planner: &mut Planner<Station, Trims>,
        nodes: &mut [Station],
    ) -> Result<Option<Taken<Trims>>, RouteRefusal>
        ensures seek { OneSeek self.now.method self.now.chart.bytes.now (length nodes.old)
            planner.old (came_in station_key trims_weight result nodes.new) planner.new }
        ensures within { Within result (length nodes.old) }
    {
        Taken::seek(planner, self.method, &self.chart, START, nodes)
    }

    // Seeks so many times, at least once, and answers what the last came to.
    fn often(
        &self,
        planner: &mut Planner<Station, Trims>,
        nodes: &mut [Station],
    ) -> Result<Option<Taken<Trims>>, RouteRefusal>
        ensures seeks { LastSeek self.now.method self.now.chart.bytes.now (length nodes.old)
            (self.now.times - 1) planner.old (came_in station_key trims_weight result nodes.new) }
        ensures within { Within result (length nodes.old) }
    {
        let before_last = self.times.saturating_sub(1);
        for _turn in 0..before_last {
            let _ = self.once(planner, nodes);
        }
        self.once(planner, nodes)
    }

    // Runs all searches; the stations of the last route go out as numbers.
    fn run(
        &self,
        planner: &mut Planner<Station, Trims>,
        nodes: &mut [Station],
        out: &mut [u32],
    ) -> Result<Taken<Trims>, Failure>
        requires { length nodes.old ≡ length out.old }
        ensures { Ran self.now.method self.now.chart.bytes.now self.now.times planner.old
            (told_of result) out.old out.new }
    {
        match self.often(planner, nodes) {
            Err(refusal) => Err(Failure::Route(refusal)),
            Ok(None) => Err(Failure::NoRoute),
            Ok(Some(taken)) => {
                copy_out(&nodes[..taken.length], &mut out[..taken.length]);
                Ok(taken)
            }
        }
    }
}

// Memory for a planner of so many rows and links, with room for a route that fills `out`.
fn memory_for(
    heap: Global,
    rows: usize,
    links: usize,
    out: &[u32],
) -> Result<Memory<Station, Trims>, Failure>
    ensures { MatchResult result
        (λ memory. memory ≡ stocked rows links (length out.now)) (λ failure. failure ≡ NoMemory) }
{
    Memory::with_room(heap, START, rows, links, out.len()).map_err(|_| Failure::NoMemory)
}

// Copies the numbers of the stations.
fn copy_out(nodes: &[Station], out: &mut [u32])
    requires { length nodes.now ≡ length out.old }
    ensures { out.new ≡ map station_key nodes.now }
{
    // By rank, since nothing is known of what is written through a `zip`.
    for (rank, place) in out.iter_mut().enumerate() {
        *place = nodes[rank].id;
    }
}

// Runs a batch by the search of a number over the bytes, where they are a chart, by a planner over memory of its own; the
// stations of the last route go out as numbers. What a caller in C gives, one by one.
pub(crate) fn search(
    heap: Global,
    method: u32,
    bytes: &[u8],
    rows: u32,
    links: u32,
    times: u32,
    out: &mut [u32],
) -> Result<Taken<Trims>, Failure>
    ensures { Tells method bytes.now rows links times (told_of result) out.old out.new }
{
    let method = numbered(method).ok_or(Failure::NoMethod)?;
    let chart = Chart::try_from(bytes).map_err(Failure::Chart)?;
    let (rows, links) = (rows as usize, links as usize);
    check(Sizes::of(rows, links)).map_err(Failure::Planner)?;
    let batch = Batch {
        method,
        chart,
        times,
    };
    let mut memory = memory_for(heap, rows, links, out)?;
    let Desk {
        mut planner,
        out: nodes,
    } = memory.desk().map_err(Failure::Planner)?;
    batch.run(&mut planner, nodes, out)
}
