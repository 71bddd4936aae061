// The lines of the program `route`, for some of the searches and for bytes that are no chart.
use crate::drawing::{Drawing, plain_road};
use report::{LINKS, ROWS, run};
use search::Method;

pub fn lines(rt: &HostRuntime) -> anyhow::Result<()> {
    let roads = [plain_road(0, 1, 2)];
    let bytes = Drawing::new(2, &roads, 1).bytes(rt.alloc())?;
    println!(rt; "searches by name")?;
    run(rt, &[Method::Dijkstra], bytes.as_slice(), ROWS, LINKS)?;
    run(rt, &[Method::Astar], bytes.as_slice(), ROWS, LINKS)?;
    println!(rt; "two, in another order")?;
    run(
        rt,
        &[Method::Astar, Method::Dijkstra],
        bytes.as_slice(),
        ROWS,
        LINKS,
    )?;
    println!(rt; "no header, and a road to a station that is not there")?;
    run(rt, &[Method::Astar], &[], ROWS, LINKS)?;
    let broken = Drawing::new(1, &roads, 0).bytes(rt.alloc())?;
    run(rt, &[Method::Astar], broken.as_slice(), ROWS, LINKS)
}
