// Charts, and what stands in their two tables.
ghost use Rattle.std.specs.Prelude.{◌≡◌, true};
ghost use Rattle.chart.specs.Sound.{sound};

use crate::checking::check;
use crate::refusal::ChartRefusal;
use crate::words::{road_count, road_record, station_count, station_record, word};
use std::ops::Range;

/// A chart: bytes that the check passes, borrowed and never copied. `Chart::try_from` checks and makes it; a caller that has
/// checked the bytes before calls `Chart::make`, which cannot fail.
///
/// ```
/// let chart = Chart::try_from(bytes)?;
/// let zone = chart.zone(&Station { id: 0 });
/// ```
#[derive(Clone, Copy)]
pub struct Chart<'a> {
    pub(crate) bytes: &'a [u8],
    ghost ok: { sound bytes.now ≡ true },
}

impl<'a> Chart<'a> {
    ghost use Rattle.std.specs.Prelude.{◌≡◌, ◌+◌, ◌*◌, ◌<◌, ◌≤◌, cond, length, Some, None, Ok, IfSome};
    ghost use Rattle.chart.specs.Checked.{checked};
    ghost use Rattle.chart.specs.Format.{station_count, road_count, first_road};
    ghost use Rattle.chart.specs.Meaning.{held_in, roads_end};

    /// The chart that stands in these bytes, which the check has passed.
    pub fn make(bytes: &'a [u8]) -> Chart<'a>
        requires { checked bytes.now ≡ Ok tt }
        ensures { result.bytes.now ≡ bytes.now }
    {
        Chart { bytes }
    }

    // Where the record of a station begins, if there is such a station.
    #[tactic(auto, using(crate::specs::Lawful::sizes))]
    pub(crate) fn station_at(&self, station: u32) -> Option<usize>
        ensures is { result
            ≡ cond (held_in self.now.bytes.now station) (Some (16 + 16 * station)) None }
        ensures within { IfSome result (λ at. at + 16 ≤ length self.now.bytes.now) }
    {
        (station < station_count(self.bytes)).then_some(station_record(station))
    }

    // Where the record of a road begins.
    #[tactic(auto, using(crate::specs::Lawful::sizes))]
    pub(crate) fn road_at(&self, road: u32) -> usize
        requires { road < road_count self.now.bytes.now }
        ensures is { result ≡ 16 + 16 * station_count self.now.bytes.now + 12 * road }
        ensures within { result + 12 ≤ length self.now.bytes.now }
    {
        road_record(station_count(self.bytes), road)
    }

    // The roads of a station in the road table; none where there is no such station.
    #[tactic(auto, using(crate::specs::Lawful::sizes, crate::specs::Lawful::ends_within))]
    pub(crate) fn roads(&self, station: u32) -> Range<u32>
        ensures start { result.start
            ≡ cond (held_in self.now.bytes.now station) (first_road self.now.bytes.now station) 0 }
        ensures end { result.end
            ≡ cond (held_in self.now.bytes.now station) (roads_end self.now.bytes.now station) 0 }
        ensures order { result.start ≤ result.end }
        ensures within { result.end ≤ road_count self.now.bytes.now }
    {
        let Some(at) = self.station_at(station) else {
            return 0..0;
        };
        let end = self
            .station_at(station + 1)
            .map_or(road_count(self.bytes), |next| word(self.bytes, next));
        word(self.bytes, at)..end
    }
}

impl<'a> TryFrom<&'a [u8]> for Chart<'a> {
    ghost use Rattle.std.specs.Prelude.{◌≡◌, Ok, Err, MatchResult};
    ghost use Rattle.chart.specs.Checked.{checked};

    type Error = ChartRefusal;

    ghost try_from_gives = { λ bytes r. MatchResult r
        (λ chart. (checked bytes.now ≡ Ok tt) × (chart.bytes.now ≡ bytes.now))
        (λ refusal. checked bytes.now ≡ Err refusal) };

    /// The chart that stands in these bytes, if the check passes them; or why it does not.
    fn try_from(bytes: &'a [u8]) -> Result<Chart<'a>, ChartRefusal> {
        check(bytes)?;
        Ok(Chart::make(bytes))
    }
}
