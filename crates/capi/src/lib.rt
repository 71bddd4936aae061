//! The planner for a caller in C or Rust: one search over a chart, run again and again by one planner.
#![tactic(auto)]

ghost use Rattle.capi.specs.Tells.{Tells};

mod batch;
mod failure;
pub mod told;

use batch::search;
use std::alloc::Global;
pub use told::Told;

#[cfg(test)]
mod tests;

/// Runs a search over the chart that stands in the bytes, from station 0, by one planner of so many rows and links, and tells the last answer:
/// the cost and the length of its route, whose stations are the first entries of `out`; or why there is none. All other entries of
/// `out` stay, and all of them where there is no route.
///
/// `method` is 0 for dijkstra, 1 for astar, 2 for astar_bag, 3 for fringe and 4 for idastar. `bytes` is a chart as docs/GRAPHS.md has
/// it. `rows` is 1 to 32,768 and `links` at most 65,535 (astar_bag alone uses links); their memory is taken once for all searches, with
/// that for a route that fills `out`. Of each search the first route is taken. `times` is how often the search runs, and once where it is 0.
///
/// # Errors
///
/// The code that is told, where it is not 0, is by the first of these that is so: `NO_METHOD` where no search has the number; 5 or 6
/// where the bytes are no chart; 1 where `rows` or `links` is out of range, before any memory is taken; `NO_MEMORY` where the heap has none
/// left; 7 to 12 where the search is refused; `NO_ROUTE` where there is no route; 13 where `out` is shorter than the route.
/// docs/REFUSALS.md says what each number means.
///
/// # Examples
///
/// ```ignore
/// let mut out = [0; 16];
/// let told = capi_seek(rt.alloc(), 1, bytes, 512, 0, 1, &mut out);
/// if told.code == 0 {
///     println!(rt; "{} trims, {} ms: {:?}", told.trims, told.millis, &out[..told.length])?;
/// }
/// ```
pub fn capi_seek(
    heap: Global,
    method: u32,
    bytes: &[u8],
    rows: u32,
    links: u32,
    times: u32,
    out: &mut [u32],
) -> Told
    ensures { Tells method bytes.now rows links times result out.old out.new }
{
    Told::from(search(heap, method, bytes, rows, links, times, out))
}
