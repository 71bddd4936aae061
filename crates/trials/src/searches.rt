// Searches over small charts, with the values of what is refused.
use crate::drawing::{Drawing, Road, plain_road};
use crate::steps::{Answer, chart_in, desk_over};
use chart::Chart;
use kinds::{Station, Trims};
use planner::Planner;
use routes::{Desk, Memory, Route};
use search::Method;
use std::io;

fn print_hand_out(
    rt: &impl Print,
    planner: &mut Planner<Station, Trims>,
    out: &mut [Station],
) -> io::Result<()> {
    match Route::next(planner, out) {
        Err(refusal) => println!(rt; "  hand-out refused {}: {refusal:?}", u8::from(refusal)),
        Ok(None) => println!(rt; "  finished"),
        Ok(Some(route)) => println!(rt; "  route{route}"),
    }
}

// Seeks by each search, and hands out three times, which is more often than there are routes; after astar first where there is no room.
fn seek(
    rt: &impl Print,
    desk: &mut Desk<Station, Trims>,
    chart: &Chart,
    start: Station,
) -> io::Result<()> {
    for method in Method::ALL {
        let found = desk.planner.seek(method, chart, start);
        let answer = Answer { found };
        println!(rt; " {method} {answer}")?;
        if method == Method::Astar {
            print_hand_out(rt, &mut desk.planner, &mut [])?;
        }
        for _ in 0..3 {
            print_hand_out(rt, &mut desk.planner, desk.out)?;
        }
    }
    Ok(())
}

// A drawing to seek in, from a station, by a planner of so many rows and links.
#[derive(Clone, Copy)]
struct Trial<'a> {
    title: &'a str,
    drawing: Drawing<'a>,
    rows: usize,
    links: usize,
    start: u32,
}

impl<'a> Trial<'a> {
    // From station 0, with rows and links enough.
    fn new(title: &'a str, drawing: Drawing<'a>) -> Trial<'a> {
        Trial {
            title,
            drawing,
            rows: 16,
            links: 16,
            start: 0,
        }
    }

    fn with_rows(self, rows: usize) -> Trial<'a> {
        Trial { rows, ..self }
    }

    fn with_links(self, links: usize) -> Trial<'a> {
        Trial { links, ..self }
    }

    fn starting_at(self, start: u32) -> Trial<'a> {
        Trial { start, ..self }
    }

    fn show(&self, rt: &HostRuntime) -> anyhow::Result<()> {
        println!(rt; "{}", self.title)?;
        let bytes = self.drawing.bytes(rt.alloc())?;
        let chart = chart_in(bytes.as_slice())?;
        let mut memory = Memory::new(rt.alloc(), Station { id: 0 }, self.rows, self.links)?;
        let mut desk = desk_over(&mut memory)?;
        seek(rt, &mut desk, &chart, Station { id: self.start })?;
        Ok(())
    }
}

fn diamonds(rt: &HostRuntime) -> anyhow::Result<()> {
    let roads = [
        plain_road(0, 1, 1),
        plain_road(0, 2, 1),
        plain_road(1, 3, 1),
        plain_road(2, 3, 1),
    ];
    let diamond = Drawing::new(4, &roads, 3);
    Trial::new("a diamond", diamond).show(rt)?;
    Trial::new("a diamond, with three rows", diamond)
        .with_rows(3)
        .show(rt)?;
    Trial::new("a diamond, with four links", diamond)
        .with_links(4)
        .show(rt)?;
    Trial::new("a diamond, with three links", diamond)
        .with_links(3)
        .show(rt)?;
    Trial::new("a diamond, from a station that is not there", diamond)
        .starting_at(4)
        .show(rt)?;
    let unreachable = Drawing::new(4, &roads, 2);
    Trial::new("a diamond, with an unreachable goal", unreachable)
        .starting_at(1)
        .show(rt)
}

fn routes(rt: &HostRuntime) -> anyhow::Result<()> {
    let around = [
        plain_road(0, 1, 3),
        plain_road(0, 2, 1),
        plain_road(1, 3, 4),
        plain_road(2, 1, 1),
    ];
    Trial::new(
        "a guess that is not consistent: a row is taken out twice",
        Drawing::new(4, &around, 3).with_guess(2, 5),
    )
    .show(rt)?;
    let short = [plain_road(0, 1, 2)];
    let guessed = Drawing::new(2, &short, 1).with_guess(1, 3);
    Trial::new("a goal with a guess", guessed).show(rt)?;
    let cut = [
        plain_road(0, 1, 4500),
        Road {
            from: 0,
            to: 2,
            cost: Trims {
                trims: 1,
                millis: 10,
            },
        },
        plain_road(1, 2, 4500),
    ];
    Trial::new("one trim against two long roads", Drawing::new(3, &cut, 2)).show(rt)
}

fn limits(rt: &HostRuntime) -> anyhow::Result<()> {
    let long = [plain_road(0, 1, u32::MAX), plain_road(1, 2, 1)];
    Trial::new("a sum past the limit", Drawing::new(3, &long, 2)).show(rt)?;
    let near = Drawing::new(3, &long, 1);
    Trial::new("a sum at the limit", near).show(rt)?;
    Trial::new("an estimate past the limit", near.with_guess(1, 1)).show(rt)
}

fn small(rt: &HostRuntime) -> anyhow::Result<()> {
    let free = [plain_road(0, 1, 0)];
    Trial::new("a road that costs nothing", Drawing::new(2, &free, 1)).show(rt)?;
    Trial::new("a goal as the start, with no road", Drawing::new(1, &[], 0))
        .with_rows(1)
        .show(rt)?;
    let parallel = [
        plain_road(0, 0, 1),
        plain_road(0, 1, 9),
        plain_road(0, 1, 4),
        plain_road(0, 1, 7),
    ];
    Trial::new("parallel roads and a loop", Drawing::new(2, &parallel, 1)).show(rt)
}

pub fn searches(rt: &HostRuntime) -> anyhow::Result<()> {
    diamonds(rt)?;
    routes(rt)?;
    limits(rt)?;
    small(rt)
}
