// Searches over a small field, under fences and tolls.
use crate::steps::{Answer, desk_over};
use field::{Field, Layout, check};
use graph::{Fence, Graph, Toll, only};
use kinds::{Cell, CostKind, Millis};
use routes::Memory;
use search::Method;

const LEFT: Cell = Cell { column: 0, row: 0 };

// Seeks by each search from the left cell.
fn seek<G: Graph<Node = Cell, Cost = Millis>>(
    rt: &HostRuntime,
    title: &str,
    graph: &G,
) -> anyhow::Result<()> {
    println!(rt; "{title}")?;
    let mut memory = Memory::new(rt.alloc(), LEFT, 8, 8)?;
    let mut desk = desk_over(&mut memory)?;
    for method in Method::ALL {
        let found = desk.planner.seek(method, graph, LEFT);
        let answer = Answer { found };
        println!(rt; " {answer}")?;
    }
    Ok(())
}

fn piles(rt: &HostRuntime, field: Field) -> anyhow::Result<()> {
    seek(rt, "three cells in a row", &field)?;
    seek(
        rt,
        "with a fence on the middle",
        &Fence::new(field, only(7)),
    )?;
    seek(rt, "with a fence on both ends", &Fence::new(field, only(0)))?;
    seek(
        rt,
        "with a toll of 5 on the middle",
        &Toll::new(field, Millis { millis: 5 }, only(7)),
    )?;
    let faulty = Toll::new(field, Millis::greatest(), only(7));
    seek(rt, "with a toll that does not fit", &faulty)?;
    let deeper = Fence::new(Fence::new(Fence::new(faulty, only(1)), only(2)), only(3));
    seek(
        rt,
        "with a toll that does not fit below three fences",
        &deeper,
    )
}

pub fn layers(rt: &HostRuntime) -> anyhow::Result<()> {
    let layout = Layout {
        columns: 3,
        rows: 1,
        step: 10,
        target: Cell { column: 2, row: 0 },
    };
    let map = [0u8, 7, 0];
    check(layout, &map)?;
    piles(rt, Field::make(layout, &map))?;
    let solid = [0u8, 7, 255];
    check(layout, &solid)?;
    seek(
        rt,
        "with a target that is solid",
        &Field::make(layout, &solid),
    )
}
