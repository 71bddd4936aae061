// The lines before the map, each a word and what it asks for.
ghost use Rattle.std.specs.Prelude.{◌≡◌, ◌<◌, IfSome};
ghost use Rattle.std.specs.Option.{option_map};
ghost use Rattle.map.specs.Words.{words};
ghost use Rattle.map.specs.Headers.{size_of, cell_of, zone_of, zones_of, toll_of, ReadsHeader};

use crate::drawing::Charge;
use crate::mistake::Mistake;
use crate::signs::byte_of;
use crate::words::Words;
use graph::{ZONES, Zones, is_zone};
use kinds::{Cell, Millis};
use std::str::FromStr;

// The columns and the rows of a field, and what one step costs in milliseconds.
#[derive(Clone, Copy)]
pub struct Size {
    pub columns: u16,
    pub rows: u16,
    pub step: u32,
}

#[derive(Clone, Copy)]
pub enum Header {
    Blank,
    Field(Size),
    Start(Cell),
    Target(Cell),
    Fence(Zones),
    Toll(Charge),
    Map,
}

fn size_line(mut words: Words) -> Option<Size>
    ensures { result ≡ size_of words.entry }
{
    let columns = words.number()?;
    let rows = words.number()?;
    let step = words.number()?;
    words.end()?;
    Some(Size {
        columns,
        rows,
        step,
    })
}

fn cell_line(mut words: Words) -> Option<Cell>
    ensures { option_map (λ cell. (cell.column, cell.row)) result ≡ cell_of words.entry }
{
    let column = words.number()?;
    let row = words.number()?;
    words.end()?;
    Some(Cell { column, row })
}

// The zone whose sign is the word.
fn zone_of(word: &str) -> Option<u8>
    ensures zone { result ≡ zone_of word.now }
    ensures small { IfSome result (λ zone. zone < 64) }
{
    let mut signs = word.chars();
    let byte = byte_of(signs.next()?)?;
    if !is_zone(byte) || signs.next().is_some() {
        return None;
    }
    Some(byte)
}

// The zones whose signs are the words, of which there is one or more.
fn zones_line(words: Words) -> Option<Zones>
    ensures { result ≡ zones_of words.entry }
{
    let mut zones = [false; ZONES];
    for word in words {
        zones[zone_of(word)? as usize] = true;
    }
    if !zones.contains(&true) {
        return None;
    }
    Some(zones)
}

fn toll_line(mut words: Words) -> Option<Charge>
    ensures { option_map (λ charge. (charge.cost.millis, charge.zones)) result ≡ toll_of words.entry }
{
    let millis = words.number()?;
    let zones = zones_line(words)?;
    Some(Charge {
        cost: Millis { millis },
        zones,
    })
}

// What a line before the map says.
impl FromStr for Header {
    type Err = Mistake;

    ghost from_str_gives = { λ line r. ReadsHeader (words line) r };

    fn from_str(line: &str) -> Result<Header, Mistake> {
        let mut words = Words::of(line);
        let Some(word) = words.next() else {
            return Ok(Header::Blank);
        };
        match word {
            "field" => size_line(words).map(Header::Field).ok_or(Mistake::Size),
            "start" => cell_line(words).map(Header::Start).ok_or(Mistake::Start),
            "target" => cell_line(words).map(Header::Target).ok_or(Mistake::Target),
            "fence" => zones_line(words).map(Header::Fence).ok_or(Mistake::Fence),
            "toll" => toll_line(words).map(Header::Toll).ok_or(Mistake::Toll),
            "map" => words.end().map(|()| Header::Map).ok_or(Mistake::Map),
            _ => Err(Mistake::Keyword),
        }
    }
}
