// Ten thousand searches over one planner, and the memory of the process before and after them.
use crate::drawing::{Drawing, plain_road};
use crate::steps::{chart_in, desk_over};
use chart::Chart;
use kinds::{Station, Trims};
use report::{LINKS, ROWS};
use routes::{Desk, Memory, Route};
use search::Method;
use std::{fs, io};

// The pages that the process has in memory, as Linux tells them.
fn pages(rt: &HostRuntime) -> io::Result<String> {
    fs::read_to_string(rt, "/proc/self/statm")
}

// Reads them twice. Reading takes memory itself, and what two at once take is there from then on.
fn settle(rt: &HostRuntime) -> io::Result<()> {
    let _first = pages(rt)?;
    let _second = pages(rt)?;
    Ok(())
}

// Seeks so many times by the searches in turn, handing out each route, and answers how many times a route came. The searches run in
// the filter, since the check does not follow them through a `map` before it.
fn seeks(desk: &mut Desk<Station, Trims>, chart: &Chart, times: u32) -> usize {
    (0..times)
        .zip(Method::ALL.into_iter().cycle())
        .filter(|&(turn, method)| {
            let start = Station { id: turn % 4 };
            let _ = desk.planner.seek(method, chart, start);
            matches!(Route::next(&mut desk.planner, desk.out), Ok(Some(_)))
        })
        .count()
}

pub fn soak(rt: &HostRuntime) -> anyhow::Result<()> {
    let roads = [
        plain_road(0, 1, 3),
        plain_road(0, 2, 1),
        plain_road(1, 3, 4),
        plain_road(2, 1, 1),
        plain_road(3, 0, 1),
    ];
    let drawing = Drawing::new(4, &roads, 3).with_guess(2, 5);
    let bytes = drawing.bytes(rt.alloc())?;
    let chart = chart_in(bytes.as_slice())?;
    let mut memory = Memory::new(rt.alloc(), Station { id: 0 }, ROWS, LINKS)?;
    let mut desk = desk_over(&mut memory)?;
    let first = seeks(&mut desk, &chart, 100);
    settle(rt)?;
    let before = pages(rt)?;
    let found = seeks(&mut desk, &chart, 10000).saturating_add(first);
    let after = pages(rt)?;
    let same = before == after;
    println!(rt; "{found} routes of 10100 searches; memory unchanged by the last 10000: {same}")?;
    Ok(())
}
