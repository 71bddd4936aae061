// What hand-outs write, and what a search that is refused leaves to hand out.
use crate::drawing::{Drawing, plain_road};
use crate::steps::{Answer, chart_in, desk_over};
use chart::Chart;
use kinds::{Station, Trims};
use planner::Planner;
use routes::{Memory, Route};
use std::io;

// What the outputs hold before anything is written: a station that the charts do not have.
const BLANK: Station = Station { id: 9 };

fn seek(
    rt: &impl Print,
    planner: &mut Planner<Station, Trims>,
    chart: &Chart,
    start: u32,
) -> io::Result<()> {
    let found = planner.dijkstra(chart, Station { id: start });
    let answer = Answer { found };
    println!(rt; " from {start}: {answer}")
}

// Hands out, and prints the answer and all that the output holds then.
fn hand_out(
    rt: &impl Print,
    planner: &mut Planner<Station, Trims>,
    out: &mut [Station],
) -> io::Result<()> {
    match planner.hand_out(out) {
        Err(refusal) => print!(rt; "  refused {}: {refusal:?};", u8::from(refusal))?,
        Ok(None) => print!(rt; "  finished;")?,
        Ok(Some(length)) => print!(rt; "  {length} stations;")?,
    }
    let output = Route { nodes: out };
    println!(rt; " the output holds{output}")
}

pub fn outputs(rt: &HostRuntime) -> anyhow::Result<()> {
    let roads = [
        plain_road(0, 1, 1),
        plain_road(1, 2, u32::MAX),
        plain_road(2, 3, 0),
    ];
    let bytes = Drawing::new(4, &roads, 3).bytes(rt.alloc())?;
    let chart = chart_in(bytes.as_slice())?;
    let mut memory = Memory::new(rt.alloc(), BLANK, 8, 0)?;
    let mut planner = desk_over(&mut memory)?.planner;
    let mut short = [BLANK; 2];
    let mut long = [BLANK; 5];
    println!(rt; "outputs that are too short, and longer than the route")?;
    seek(rt, &mut planner, &chart, 1)?;
    hand_out(rt, &mut planner, &mut short)?;
    hand_out(rt, &mut planner, &mut long)?;
    hand_out(rt, &mut planner, &mut short)?;
    println!(rt; "a search that is refused while a route is still to be handed out")?;
    for refused in [4, 0] {
        seek(rt, &mut planner, &chart, 1)?;
        seek(rt, &mut planner, &chart, refused)?;
        hand_out(rt, &mut planner, &mut long)?;
    }
    Ok(())
}
