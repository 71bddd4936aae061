// The numbers that stand in bytes, and where the records of the two tables begin.
ghost use Rattle.std.specs.Prelude.{◌≡◌, ◌+◌, ◌*◌, ◌≤◌, length};
ghost use Rattle.chart.specs.Words.{word_at};
ghost use Rattle.chart.specs.Format.{station_count, road_count};

use kinds::Trims;

// How many stations and roads a chart has at the most.
pub(crate) const MOST_STATIONS: u32 = 1024;

pub(crate) const MOST_ROADS: u32 = 4000;

// What the last word of a station has beside its zone where it is a goal.
pub(crate) const GOAL: u32 = 256;

// The number that stands in the four bytes from a place on, the least byte first.
#[tactic(auto, unfolding(crate::specs::Words::word_at))]
pub(crate) fn word(bytes: &[u8], at: usize) -> u32
    requires { at + 4 ≤ length bytes.now }
    ensures { result ≡ word_at bytes.now at }
{
    u32::from_le_bytes([bytes[at], bytes[at + 1], bytes[at + 2], bytes[at + 3]])
}

// The cost that stands in the eight bytes from a place on: trims, then milliseconds.
pub(crate) fn cost(bytes: &[u8], at: usize) -> Trims
    requires { at + 8 ≤ length bytes.now }
    ensures trims { result.trims ≡ word_at bytes.now at }
    ensures millis { result.millis ≡ word_at bytes.now (at + 4) }
{
    Trims {
        trims: word(bytes, at),
        millis: word(bytes, at + 4),
    }
}

// How many stations the header says there are.
pub(crate) fn station_count(bytes: &[u8]) -> u32
    requires { 16 ≤ length bytes.now }
    ensures { result ≡ station_count bytes.now }
{
    word(bytes, 0)
}

// How many roads the header says there are.
pub(crate) fn road_count(bytes: &[u8]) -> u32
    requires { 16 ≤ length bytes.now }
    ensures { result ≡ road_count bytes.now }
{
    word(bytes, 4)
}

// The last word of the record of a station: its zone, and whether it is a goal. The other words are read at the places that the
// format gives them.
pub(crate) fn last_word(bytes: &[u8], at: usize) -> u32
    requires { at + 16 ≤ length bytes.now }
    ensures { result ≡ word_at bytes.now (at + 12) }
{
    word(bytes, at + 12)
}

// Where the record of a station begins.
pub(crate) fn station_record(station: u32) -> usize
    ensures { result ≡ 16 + 16 * station }
{
    16 + 16 * station as usize
}

// Where the record of a road begins, behind those of so many stations.
pub(crate) fn road_record(stations: u32, road: u32) -> usize
    ensures { result ≡ 16 + 16 * stations + 12 * road }
{
    station_record(stations) + 12 * road as usize
}
