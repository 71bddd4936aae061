// What a caller is told, and what stands in `out` then.
use crate::capi_seek;
use crate::told::Told;
use std::alloc::{AllocError, Global};
use std::mem::size_of;
use std::test::Fail;

const DIJKSTRA: u32 = 0;

const ASTAR: u32 = 1;

const ASTAR_BAG: u32 = 2;

const FRINGE: u32 = 3;

const IDASTAR: u32 = 4;

// Three stations in a row, with roads of 1 and 2 milliseconds, from station 0 to the goal 2.
fn three_in_a_row(heap: Global) -> Result<Vec<u8>, AllocError> {
    let words = [
        3u32, 2, 16, 64, // the header
        0, 0, 0, 0, // station 0
        1, 0, 0, 0, // station 1
        2, 0, 0, 256, // station 2, the goal
        1, 0, 1, // to station 1
        2, 0, 2, // to station 2
    ];
    let mut bytes = Vec::new(heap);
    for word in words {
        bytes.extend_from_slice(&word.to_le_bytes())?;
    }
    Ok(bytes)
}

fn bare(code: u32) -> Told {
    Told {
        code,
        trims: 0,
        millis: 0,
        length: 0,
    }
}

#[test]
fn a_route_shorter_than_out(rt: HostRuntime) -> Result<(), Fail> {
    let bytes = three_in_a_row(rt.alloc())?;
    for method in [DIJKSTRA, ASTAR, ASTAR_BAG, FRINGE, IDASTAR] {
        let mut out = [9; 5];
        let told = capi_seek(rt.alloc(), method, bytes.as_slice(), 3, 2, 2, &mut out);
        assert_eq!(rt;
            (told.code, told.trims, told.millis, told.length),
            (0, 0, 3, 3)
        );
        assert_eq!(rt; out, [0, 1, 2, 9, 9]);
    }
    Ok(())
}

#[test]
fn no_row_is_left(rt: HostRuntime) -> Result<(), Fail> {
    let bytes = three_in_a_row(rt.alloc())?;
    let mut out = [9; 3];
    let told = capi_seek(rt.alloc(), DIJKSTRA, bytes.as_slice(), 1, 2, 1, &mut out);
    assert_eq!(rt; told, bare(11));
    assert_eq!(rt; out, [9; 3]);
    Ok(())
}

#[test]
fn out_is_too_short(rt: HostRuntime) -> Result<(), Fail> {
    let bytes = three_in_a_row(rt.alloc())?;
    let mut out = [9; 2];
    let told = capi_seek(rt.alloc(), ASTAR, bytes.as_slice(), 3, 2, 1, &mut out);
    assert_eq!(rt; told, bare(13));
    assert_eq!(rt; out, [9; 2]);
    Ok(())
}

#[test]
fn rows_out_of_range(rt: HostRuntime) -> Result<(), Fail> {
    let bytes = three_in_a_row(rt.alloc())?;
    for rows in [0, 32769, 50_000_000] {
        let mut out = [9; 3];
        let told = capi_seek(rt.alloc(), DIJKSTRA, bytes.as_slice(), rows, 2, 1, &mut out);
        assert_eq!(rt; told, bare(1), "{rows} rows");
        assert_eq!(rt; out, [9; 3]);
    }
    Ok(())
}

// A caller in C reads the fields in this order, each behind the one before.
#[test]
fn fields_in_their_order(rt: HostRuntime) -> Result<(), Fail> {
    let told = Told {
        code: 1,
        trims: 2,
        millis: 3,
        length: 4,
    };
    let text = format!(in rt.alloc(); "{told:?}")?;
    assert_eq!(rt;
        text.as_str(),
        "Told { code: 1, trims: 2, millis: 3, length: 4 }"
    );
    assert_eq!(rt; size_of::<Told>(), 24);
    Ok(())
}
