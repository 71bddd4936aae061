// Where a search and a hand-out stop: the number of each refusal, and its words.
ghost use Rattle.std.specs.Prelude.{◌≡◌, Some};
ghost use Rattle.search.specs.Numbers.{seek_number, hand_out_number};
ghost use Rattle.search.specs.Words.{seek_words, hand_out_words};

use graph::Fault;
use std::error::Error;
use std::fmt;

/// Why a search was refused, and where: the row whose roads were followed, counted from 0 in the order of finding, and the
/// rank of the road. A refused search leaves nothing to hand out.
///
/// ```
/// println!(rt; "{}", SeekRefusal::NoRow { row: 1, rank: 0 })?; // no row is left for the end of road 0 of row 1
/// ```
#[derive(Clone, Copy, PartialEq, Eq, Debug)]
pub enum SeekRefusal {
    /// The start is not held.
    NotHeld,
    /// A road is faulty.
    FaultyRoad { row: u16, fault: Fault },
    /// A road weighs nothing, where all parents are kept.
    ZeroWeight { row: u16, rank: u16 },
    /// A sum of costs does not fit; with a rank where it is that of a road.
    NoSum { row: u16, rank: Option<u16> },
    /// A new node was found, and no row is left for it.
    NoRow { row: u16, rank: u16 },
    /// A row was reached from one more, and no link is left for that.
    NoLink { row: u16, rank: u16 },
}

/// The number by which users know it: 7 to 12.
impl From<SeekRefusal> for u8 {
    ghost from_gives = { λ refusal n. n ≡ seek_number refusal };

    fn from(refusal: SeekRefusal) -> u8 {
        match refusal {
            SeekRefusal::NotHeld => 7,
            SeekRefusal::FaultyRoad { .. } => 8,
            SeekRefusal::ZeroWeight { .. } => 9,
            SeekRefusal::NoSum { .. } => 10,
            SeekRefusal::NoRow { .. } => 11,
            SeekRefusal::NoLink { .. } => 12,
        }
    }
}

// By hand: what a derive writes has no contract.
impl fmt::Display for SeekRefusal {
    ghost output = { λ refusal. Some (seek_words refusal) };

    fn fmt<W: fmt::Write>(&self, f: &mut fmt::Formatter<W>) -> fmt::Result {
        match self {
            SeekRefusal::NotHeld => f.write_str("the start is not held"),
            SeekRefusal::FaultyRoad { row, fault } => {
                write!(
                    f,
                    "a road of row {row} is faulty: rank {} at depth {}",
                    fault.rank, fault.depth
                )
            }
            SeekRefusal::ZeroWeight { row, rank } => {
                write!(f, "road {rank} of row {row} weighs nothing")
            }
            SeekRefusal::NoSum {
                row,
                rank: Some(rank),
            } => { write!(f, "a sum of costs does not fit at road {rank} of row {row}") }
            SeekRefusal::NoSum { row, rank: None } => {
                write!(f, "a sum of costs does not fit at row {row}")
            }
            SeekRefusal::NoRow { row, rank } => {
                write!(f, "no row is left for the end of road {rank} of row {row}")
            }
            SeekRefusal::NoLink { row, rank } => {
                write!(f, "no link is left for road {rank} of row {row}")
            }
        }
    }
}

impl Error for SeekRefusal {}

/// Why a hand-out was refused. It writes nothing, and the route stays the next one.
///
/// ```
/// println!(rt; "{}", HandOutRefusal::Short { needed: 4 })?; // the output needs room for 4 nodes
/// ```
#[derive(Clone, Copy, PartialEq, Eq, Debug)]
pub enum HandOutRefusal {
    /// The output is shorter than the route, which has so many nodes.
    Short { needed: usize },
}

/// The number by which users know it: 13.
impl From<HandOutRefusal> for u8 {
    ghost from_gives = { λ refusal n. n ≡ hand_out_number refusal };

    fn from(refusal: HandOutRefusal) -> u8 {
        match refusal {
            HandOutRefusal::Short { .. } => 13,
        }
    }
}

impl fmt::Display for HandOutRefusal {
    ghost output = { λ refusal. Some (hand_out_words refusal) };

    fn fmt<W: fmt::Write>(&self, f: &mut fmt::Formatter<W>) -> fmt::Result {
        match self {
            HandOutRefusal::Short { needed } => {
                write!(f, "the output needs room for {needed} nodes")
            }
        }
    }
}

impl Error for HandOutRefusal {}
