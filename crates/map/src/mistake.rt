// What can be wrong with a drawing.
ghost use Rattle.std.specs.Prelude.{◌≡◌};
ghost use Rattle.std.specs.Fmt.{WritesOnOk};
ghost use Rattle.map.specs.Mistakes.{width_message, short_message};
ghost use Rattle.map.specs.declared.mistake.Mistake.TheVariants.{Memory};

use std::alloc::{AllocError, AllocFailed};
use std::error::Error;
use std::fmt;

#[derive(Clone, Copy, PartialEq, Eq, Debug)]
pub enum Mistake {
    // A line before the map begins with no word that is known.
    Keyword,
    // A line is not what its first word asks for.
    Size,
    Start,
    Target,
    Fence,
    Toll,
    Map,
    // A second line of a word of which there is one.
    Twice,
    // The map begins before the size, the start and the target are given.
    Early,
    // The drawing ends before its map.
    NoMap,
    // A sign that stands for no cell, and its column.
    Sign { column: usize, sign: char },
    // A row of the map that is too short or too long.
    Width { columns: u16, found: usize },
    // The drawing ends before its last row.
    Short { rows: u16, found: u16 },
    // The drawing goes on after its last row.
    Long { rows: u16 },
    // There is no memory for the layers or the map.
    Memory,
}

// How wide a row is to be, and how wide it is: a function of its own, so that a clause pins which number is which.
fn write_width<W: fmt::Write>(f: &mut fmt::Formatter<W>, columns: u16, found: usize) -> fmt::Result
    ensures { WritesOnOk W.write_str_gives f.old result (width_message columns found) f.new }
{
    write!(f, "expected a row of {columns} cells, found {found}")
}

// How many rows there are to be, and how many there are.
fn write_short<W: fmt::Write>(f: &mut fmt::Formatter<W>, rows: u16, found: u16) -> fmt::Result
    ensures { WritesOnOk W.write_str_gives f.old result (short_message rows found) f.new }
{
    write!(f, "expected {rows} rows, found {found}")
}

// By hand: what a derive writes has no contract.
impl fmt::Display for Mistake {
    ghost use Rattle.std.specs.Prelude.{Some};
    ghost use Rattle.map.specs.Mistakes.{message_of};

    ghost output = { λ mistake. Some (message_of mistake) };

    fn fmt<W: fmt::Write>(&self, f: &mut fmt::Formatter<W>) -> fmt::Result {
        match *self {
            Mistake::Keyword => f.write_str("expected field, start, target, fence, toll or map"),
            Mistake::Size => f.write_str(
                "expected field COLUMNS ROWS STEP, three numbers: 1 to 256, 1 to 128 and 1 to 1000",
            ),
            Mistake::Start => f.write_str("expected start COLUMN ROW, two numbers from 0 to 65535"),
            Mistake::Target => {
                f.write_str("expected target COLUMN ROW, two numbers from 0 to 65535")
            }
            Mistake::Fence => f.write_str("expected fence ZONE, one or more zones by their signs"),
            Mistake::Toll => f.write_str(
                "expected toll MILLIS ZONE, a number from 0 to 4294967295 and one or more zones by their signs",
            ),
            Mistake::Map => f.write_str("expected map, with nothing after it"),
            Mistake::Twice => f.write_str("expected no second line of this word"),
            Mistake::Early => {
                f.write_str("expected the lines field, start and target before the map")
            }
            Mistake::NoMap => {
                f.write_str("expected the line map, and the rows of the map after it")
            }
            Mistake::Sign { column, sign } => write!(
                f,
                "column {column}: {sign} is no cell: expected # . 1 to 9, a to z, A to Z, + or -"
            ),
            Mistake::Width { columns, found } => write_width(f, columns, found),
            Mistake::Short { rows, found } => write_short(f, rows, found),
            Mistake::Long { rows } => write!(f, "expected {rows} rows, and nothing after them"),
            Mistake::Memory => f.write_str("no memory for the drawing"),
        }
    }
}

impl Error for Mistake {}

impl Mistake {
    // The mistake in the line of this number.
    pub fn at(self, line: usize) -> Problem
        ensures { result ≡ record { line = line; mistake = self } }
    {
        Problem {
            line,
            mistake: self,
        }
    }
}

// Two impls by hand: contracts name the mistake, and a derived `From` has none.
impl From<AllocError> for Mistake {
    ghost from_gives = { λ _ mistake. mistake ≡ Memory };

    fn from(_error: AllocError) -> Mistake {
        Mistake::Memory
    }
}

impl<T: Drop> From<AllocFailed<T>> for Mistake {
    ghost from_gives = { λ _ mistake. mistake ≡ Memory };

    fn from(_error: AllocFailed<T>) -> Mistake {
        Mistake::from(AllocError)
    }
}

// A mistake, and the number of the line that it is in, from 1.
#[derive(Clone, Copy, PartialEq, Eq, Debug)]
pub struct Problem {
    pub line: usize,
    pub mistake: Mistake,
}

impl fmt::Display for Problem {
    ghost use Rattle.std.specs.Prelude.{Some};
    ghost use Rattle.map.specs.Mistakes.{message_at};

    ghost output = { λ problem. Some (message_at problem) };

    fn fmt<W: fmt::Write>(&self, f: &mut fmt::Formatter<W>) -> fmt::Result {
        write!(f, "line {}: {}", self.line, self.mistake)
    }
}

impl Error for Problem {}
