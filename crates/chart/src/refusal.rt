// Why bytes are no chart.
ghost use Rattle.std.specs.Prelude.{◌≡◌, Some};

use std::error::Error;
use std::fmt;

/// What is wrong with the bytes: the first thing found, the header before the stations, the stations before the roads.
#[derive(Clone, Copy, PartialEq, Eq, Debug)]
pub enum ChartRefusal {
    /// The bytes are fewer than a header's, or the header or the length is wrong.
    Header,
    /// The first station that breaks its rule.
    Station { station: u32 },
    /// The first road that breaks its rule, where no station does.
    Road { road: u32 },
}

/// The number under which the refusal is reported: 5 for the header and the length, 6 for a station or a road.
impl From<ChartRefusal> for u8 {
    ghost use Rattle.chart.specs.Refusal.{number_of};

    ghost from_gives = { λ refusal n. n ≡ number_of refusal };

    fn from(refusal: ChartRefusal) -> u8 {
        match refusal {
            ChartRefusal::Header => 5,
            ChartRefusal::Station { .. } | ChartRefusal::Road { .. } => 6,
        }
    }
}

// By hand: what a derive writes has no contract.
impl fmt::Display for ChartRefusal {
    ghost use Rattle.chart.specs.Refusal.{message_of};

    ghost output = { λ refusal. Some (message_of refusal) };

    fn fmt<W: fmt::Write>(&self, f: &mut fmt::Formatter<W>) -> fmt::Result {
        match self {
            ChartRefusal::Header => f.write_str(
                "expected a header of 1 to 1024 stations and at most 4000 roads, and no byte more or less",
            ),
            ChartRefusal::Station { station } => {
                write!(
                    f,
                    "the first road or the zone of station {station} is wrong"
                )
            }
            ChartRefusal::Road { road } => write!(f, "road {road} leads to no station"),
        }
    }
}

impl Error for ChartRefusal {}
