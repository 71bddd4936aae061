// Whether bytes are a chart.
ghost use Rattle.std.specs.Prelude.{◌≡◌, ◌+◌, ◌*◌, ◌≤◌, true, length};
ghost use Rattle.chart.specs.Format.{station_count};
ghost use Rattle.chart.specs.Rules.{header_keeps, last_keeps, first_keeps, station_keeps, road_keeps};
ghost use Rattle.chart.specs.Checked.{bad_station, bad_road, checked};
ghost use Rattle.chart.specs.Verdict.{Says};

use crate::refusal::ChartRefusal;
use crate::words::{
    GOAL, MOST_ROADS, MOST_STATIONS, last_word, road_count, road_record, station_count,
    station_record, word,
};
use graph::ZONES;

// Whether the header and the length keep their rule.
fn header_keeps(bytes: &[u8]) -> bool
    ensures { result ≡ header_keeps bytes.now }
{
    if bytes.len() < 16 {
        return false;
    }
    let stations = station_count(bytes);
    let roads = road_count(bytes);
    (1..=MOST_STATIONS).contains(&stations)
        && roads <= MOST_ROADS
        && word(bytes, 8) as usize == station_record(0)
        && word(bytes, 12) as usize == station_record(stations)
        && bytes.len() == road_record(stations, roads)
}

// Whether a station's last word is a zone, or a zone and the mark of a goal.
fn last_keeps(last: u32) -> bool
    ensures { result ≡ last_keeps last }
{
    let zones = ZONES as u32;
    last < zones || (GOAL..GOAL + zones).contains(&last)
}

// Whether a station's first road is right: 0 at station 0, at any other not before that of the station before and not
// past the last road.
fn first_keeps(bytes: &[u8], station: u32) -> bool
    requires { 32 + 16 * station ≤ length bytes.now }
    ensures { result ≡ first_keeps bytes.now station }
{
    let at = station_record(station);
    let first = word(bytes, at);
    if station == 0 {
        return first == 0;
    }
    (word(bytes, at - 16)..=road_count(bytes)).contains(&first)
}

// Whether a station keeps its rule.
fn station_keeps(bytes: &[u8], station: u32) -> bool
    requires { 32 + 16 * station ≤ length bytes.now }
    ensures { result ≡ station_keeps bytes.now station }
{
    first_keeps(bytes, station) && last_keeps(last_word(bytes, station_record(station)))
}

// Whether a road keeps its rule.
fn road_keeps(bytes: &[u8], road: u32) -> bool
    requires { 28 + 16 * station_count bytes.now + 12 * road ≤ length bytes.now }
    ensures { result ≡ road_keeps bytes.now road }
{
    let stations = station_count(bytes);
    word(bytes, road_record(stations, road)) < stations
}

// The first station that breaks its rule.
fn bad_station(bytes: &[u8]) -> Option<u32>
    requires { header_keeps bytes.now ≡ true }
    ensures { result ≡ bad_station bytes.now }
{
    (0..station_count(bytes)).find(|&station| !station_keeps(bytes, station))
}

// The first road that breaks its rule.
fn bad_road(bytes: &[u8]) -> Option<u32>
    requires { header_keeps bytes.now ≡ true }
    ensures { result ≡ bad_road bytes.now }
{
    (0..road_count(bytes)).find(|&road| !road_keeps(bytes, road))
}

/// Checks that the bytes are a chart: the header and the length first, then each station, then each road. It refuses with
/// the first that breaks its rule.
#[tactic(auto, using(crate::proofs::Says::says), unfolding(crate::specs::Checked::checked))]
pub fn check(bytes: &[u8]) -> Result<(), ChartRefusal>
    ensures is { result ≡ checked bytes.now }
    ensures says { Says bytes.now result }
{
    if !header_keeps(bytes) {
        return Err(ChartRefusal::Header);
    }
    if let Some(station) = bad_station(bytes) {
        return Err(ChartRefusal::Station { station });
    }
    if let Some(road) = bad_road(bytes) {
        return Err(ChartRefusal::Road { road });
    }
    Ok(())
}
