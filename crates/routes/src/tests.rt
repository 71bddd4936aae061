// Memory that is there, and a planner over it.
use crate::desk::Desk;
use crate::memory::Memory;
use crate::route::Route;
use kinds::{Station, Trims};
use std::alloc::{AllocError, Global};
use std::test::Fail;

#[test]
fn memory_of_three_rows(rt: HostRuntime) -> Result<(), Fail> {
    let node = Station { id: 0 };
    let mut memory = Memory::<Station, Trims>::new(rt.alloc(), node, 3, 2)?;
    assert_eq!(rt; memory.rows.len(), 3);
    assert_eq!(rt; memory.slots.len(), 3);
    assert_eq!(rt; memory.links.len(), 2);
    assert_eq!(rt; memory.nodes.len(), 3);
    let Desk { mut planner, out } = memory.desk()?;
    assert!(rt; Route::next(&mut planner, out)?.is_none());
    Ok(())
}

#[test]
fn memory_with_room(rt: HostRuntime) -> Result<(), Fail> {
    let node = Station { id: 0 };
    let memory = Memory::<Station, Trims>::with_room(rt.alloc(), node, 3, 2, 1)?;
    assert_eq!(rt; memory.rows.len(), 3);
    assert_eq!(rt; memory.nodes.len(), 1);
    Ok(())
}

// The number of the refusal to make a planner over so many rows and links.
fn refused(heap: Global, rows: usize, links: usize) -> Result<Option<u8>, AllocError> {
    let node = Station { id: 0 };
    let mut memory = Memory::<Station, Trims>::with_room(heap, node, rows, links, 0)?;
    Ok(memory.desk().err().map(u8::from))
}

#[test]
fn counts(rt: HostRuntime) -> Result<(), Fail> {
    for (rows, links, answer) in [
        (0, 0, Some(1)),
        (1, 65535, None),
        (1, 65536, Some(1)),
        (32768, 0, None),
        (32769, 0, Some(1)),
    ] {
        let found = refused(rt.alloc(), rows, links)?;
        assert_eq!(rt; found, answer, "{rows} rows, {links} links");
    }
    Ok(())
}
