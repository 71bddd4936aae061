// Small charts drawn in the source.
ghost use Rattle.std.specs.Prelude.{◌≡◌, ◌++◌, length, min, IfOk, OnOk, Some, None};
ghost use Rattle.std.specs.List.{filter, flat_map, range_with_len};
ghost use Rattle.trials.specs.Drawn.{word_bytes, count_bytes, guess_drawn, mark_drawn, roads_before, header_bytes, station_bytes, road_bytes, chart_bytes};

use kinds::Trims;
use std::alloc::{AllocError, Global};

#[derive(Clone, Copy)]
pub struct Road {
    pub from: u32,
    pub to: u32,
    pub cost: Trims,
}

// A road that costs no trim.
pub fn plain_road(from: u32, to: u32, millis: u32) -> Road
    ensures begins { result.from ≡ from }
    ensures leads { result.to ≡ to }
    ensures trims { result.cost.trims ≡ 0 }
    ensures millis { result.cost.millis ≡ millis }
{
    Road {
        from,
        to,
        cost: Trims { trims: 0, millis },
    }
}

// A guess in milliseconds at one station.
#[derive(Clone, Copy)]
struct Guess {
    station: u32,
    millis: u32,
}

// Stations from 0 on; their roads, ordered by where they begin; one goal; and one guess at most.
#[derive(Clone, Copy)]
pub struct Drawing<'a> {
    stations: u32,
    roads: &'a [Road],
    goal: u32,
    guess: Option<Guess>,
}

fn put(bytes: &mut Vec<u8>, word: u32) -> Result<(), AllocError>
    ensures { OnOk result (bytes.new.items ≡ bytes.old.items ++ word_bytes word) }
{
    bytes.extend_from_slice(&word.to_le_bytes())
}

fn put_count(bytes: &mut Vec<u8>, count: usize) -> Result<(), AllocError>
    ensures { OnOk result (bytes.new.items ≡ bytes.old.items ++ count_bytes count) }
{
    put(bytes, u32::try_from(count).unwrap_or(u32::MAX))
}

fn put_road(bytes: &mut Vec<u8>, road: &Road) -> Result<(), AllocError>
    ensures { OnOk result (bytes.new.items ≡ bytes.old.items ++ road_bytes road.now) }
{
    put(bytes, road.to)?;
    put(bytes, road.cost.trims)?;
    put(bytes, road.cost.millis)
}

impl<'a> Drawing<'a> {
    // With no guess.
    pub fn new(stations: u32, roads: &'a [Road], goal: u32) -> Drawing<'a>
        ensures stations { result.stations ≡ stations }
        ensures roads { result.roads.now ≡ roads.now }
        ensures goal { result.goal ≡ goal }
        ensures guess { result.guess ≡ None }
    {
        Drawing {
            stations,
            roads,
            goal,
            guess: None,
        }
    }

    // With this guess in place of the one before.
    pub fn with_guess(self, station: u32, millis: u32) -> Drawing<'a>
        ensures guess { result.guess ≡ Some (record { station = station; millis = millis }) }
        ensures stations { result.stations ≡ self.entry.stations }
        ensures roads { result.roads.now ≡ self.entry.roads.now }
        ensures goal { result.goal ≡ self.entry.goal }
    {
        Drawing {
            guess: Some(Guess { station, millis }),
            ..self
        }
    }

    // How many roads begin before a station.
    fn first_road(&self, station: u32) -> usize
        ensures { result ≡ roads_before self.now.roads.now station }
    {
        self.roads.iter().filter(|road| road.from < station).count()
    }

    fn guess_at(&self, station: u32) -> u32
        ensures { result ≡ guess_drawn self.now.guess station }
    {
        self.guess
            .filter(|guess| guess.station == station)
            .map_or(0, |guess| guess.millis)
    }

    // What stands last of a station: 256 at the goal, and zone 0. The trials write the format out on their own, so that the
    // chart's constants are tried too.
    fn mark_of(&self, station: u32) -> u32
        ensures { result ≡ mark_drawn self.now.goal station }
    {
        if station == self.goal { 256 } else { 0 }
    }

    fn put_station(&self, bytes: &mut Vec<u8>, station: u32) -> Result<(), AllocError>
        ensures { OnOk result (bytes.new.items ≡ bytes.old.items ++ station_bytes self.now station) }
    {
        put_count(bytes, self.first_road(station))?;
        put(bytes, 0)?;
        put(bytes, self.guess_at(station))?;
        put(bytes, self.mark_of(station))
    }

    // How many stations and roads there are, and where the two tables begin, as the format of charts has it.
    fn put_header(&self, bytes: &mut Vec<u8>) -> Result<(), AllocError>
        ensures { OnOk result (bytes.new.items ≡ bytes.old.items ++ header_bytes self.now) }
    {
        put(bytes, self.stations)?;
        put_count(bytes, self.roads.len())?;
        put(bytes, 16)?;
        put_count(bytes, 16 + 16 * self.stations as usize)
    }

    fn put_stations(&self, bytes: &mut Vec<u8>) -> Result<(), AllocError>
        ensures { OnOk result (bytes.new.items ≡ bytes.old.items ++ flat_map (station_bytes self.now) (range_with_len 0 self.now.stations)) }
    {
        for station in 0..self.stations {
            self.put_station(bytes, station)?;
        }
        Ok(())
    }

    fn put_roads(&self, bytes: &mut Vec<u8>) -> Result<(), AllocError>
        ensures { OnOk result (bytes.new.items ≡ bytes.old.items ++ flat_map road_bytes self.now.roads.now) }
    {
        for road in self.roads {
            put_road(bytes, road)?;
        }
        Ok(())
    }

    // The chart's bytes.
    pub fn bytes(&self, heap: Global) -> Result<Vec<u8>, AllocError>
        ensures { IfOk result (λ bytes. bytes.items ≡ chart_bytes self.now) }
    {
        let mut bytes = Vec::new(heap);
        self.put_header(&mut bytes)?;
        self.put_stations(&mut bytes)?;
        self.put_roads(&mut bytes)?;
        Ok(bytes)
    }
}
