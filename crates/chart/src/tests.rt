// Small charts and broken ones.
ghost use Rattle.std.specs.Prelude.{◌<◌};

use crate::borrowed::Chart;
use crate::checking::check;
use crate::refusal::ChartRefusal;
use graph::Graph;
use kinds::{Station, Trims};
use std::alloc::{AllocError, Global};
use std::test::Fail;

// One station and no road.
const ONE: &[u8; 32] = b"\x01\0\0\0\0\0\0\0\x10\0\0\0\x20\0\0\0\0\0\0\0\0\0\0\0\0\0\0\0\0\0\0\0";

// Three stations, a road from station 0 to station 2, which is a goal, and a byte behind them.
const THREE: &[u8; 77] =
    b"\x03\0\0\0\x01\0\0\0\x10\0\0\0\x40\0\0\0\0\0\0\0\0\0\0\0\x07\0\0\0\x05\0\0\0\x01\0\0\0\0\0\0\0\0\0\0\0\0\0\0\0\x01\0\0\0\x02\0\0\0\x03\0\0\0\x3f\x01\0\0\x02\0\0\0\x01\0\0\0\x09\0\0\0\0";

// What the check answers where one byte of the three stations is another.
fn changed(at: usize, byte: u8) -> Result<(), ChartRefusal>
    requires { at < 76 }
{
    let mut bytes = *THREE;
    bytes[at] = byte;
    check(&bytes[..76])
}

// What the check answers, by number, of so many stations and roads whose records are all zeros.
fn counted(heap: Global, stations: u16, roads: u16) -> Result<Result<(), u8>, AllocError> {
    let mut bytes = Vec::new(heap);
    for word in [stations as u32, roads as u32, 16, 16 + 16 * stations as u32] {
        bytes.extend_from_slice(&word.to_le_bytes())?;
    }
    let records = vec![in heap; 0u8; 16 * stations as usize + 12 * roads as usize]?;
    bytes.extend_from_slice(records.as_slice())?;
    Ok(check(bytes.as_slice()).map_err(u8::from))
}

#[test]
fn counts(rt: HostRuntime) -> Result<(), Fail> {
    for (stations, roads, answer) in [
        (0, 0, Err(5)),
        (1, 4000, Ok(())),
        (1, 4001, Err(5)),
        (1024, 0, Ok(())),
        (1025, 0, Err(5)),
    ] {
        let found = counted(rt.alloc(), stations, roads)?;
        assert_eq!(rt; found, answer, "{stations} stations, {roads} roads");
    }
    Ok(())
}

#[test]
fn lengths(rt: HostRuntime) {
    assert_eq!(rt; check(ONE), Ok(()));
    assert_eq!(rt; check(&ONE[..31]), Err(ChartRefusal::Header));
    assert_eq!(rt; check(&[]), Err(ChartRefusal::Header));
    assert_eq!(rt; check(&THREE[..75]), Err(ChartRefusal::Header));
    assert_eq!(rt; check(&THREE[..76]), Ok(()));
    assert_eq!(rt; check(THREE), Err(ChartRefusal::Header));
}

#[test]
fn rules(rt: HostRuntime) {
    assert_eq!(rt; changed(8, 17), Err(ChartRefusal::Header));
    assert_eq!(rt; changed(12, 65), Err(ChartRefusal::Header));
    assert_eq!(rt; changed(16, 1), Err(ChartRefusal::Station { station: 0 }));
    assert_eq!(rt; changed(32, 2), Err(ChartRefusal::Station { station: 1 }));
    assert_eq!(rt; changed(48, 0), Err(ChartRefusal::Station { station: 2 }));
    assert_eq!(rt; changed(28, 64), Err(ChartRefusal::Station { station: 0 }));
    assert_eq!(rt; changed(45, 2), Err(ChartRefusal::Station { station: 1 }));
    assert_eq!(rt; changed(64, 3), Err(ChartRefusal::Road { road: 0 }));
    assert_eq!(rt; changed(48, 0).map_err(u8::from), Err(6));
    assert_eq!(rt; changed(64, 3).map_err(u8::from), Err(6));
}

#[test]
fn answers(rt: HostRuntime) -> Result<(), Fail> {
    let chart = Chart::try_from(&THREE[..76])?;
    let last = Station { id: 2 };
    assert_eq!(rt; chart.zone(&last), 63);
    assert_eq!(rt; chart.goal(&last), true);
    assert_eq!(rt; chart.road_count(&last), 0);
    assert_eq!(rt; chart.guess(&last).millis, 3);
    assert_eq!(rt; chart.held(&Station { id: 3 }), false);
    let cost = Trims {
        trims: 1,
        millis: 9,
    };
    assert_eq!(rt; chart.road(&Station { id: 0 }, 0), Ok(Some((last, cost))));
    Ok(())
}

#[test]
fn refusals_in_words(rt: HostRuntime) -> Result<(), Fail> {
    let road = ChartRefusal::Road { road: 3 };
    assert_eq!(rt;
        format!(in rt.alloc(); "{road}")?.as_str(),
        "road 3 leads to no station"
    );
    Ok(())
}
