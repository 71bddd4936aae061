// What a chart answers as a graph.
ghost use Rattle.chart.specs.Meaning.{held_in, zone_in, count_in, road_in, guess_in, goal_in};
ghost use Rattle.chart.specs.Lawful.{chart_lawful};

use crate::borrowed::Chart;
use crate::words::{GOAL, cost, last_word, word};
use graph::{Fault, Graph};
use kinds::{CostKind, Station, Trims};

impl<'a> Graph for Chart<'a> {
    type Node = Station;

    type Cost = Trims;

    ghost holds = { λ c. held_in c.bytes.now };

    ghost zones = { λ c. zone_in c.bytes.now };

    ghost counts = { λ c. count_in c.bytes.now };

    ghost roads = { λ c. road_in c.bytes.now };

    ghost guesses = { λ c. guess_in c.bytes.now };

    ghost goals = { λ c. goal_in c.bytes.now };

    ghost lawful = { λ c. chart_lawful c.bytes.now c.ok };

    fn held(&self, node: &Station) -> bool {
        self.station_at(node.id).is_some()
    }

    fn zone(&self, node: &Station) -> u8 {
        self.station_at(node.id)
            .map_or(0, |at| (last_word(self.bytes, at) % GOAL) as u8)
    }

    #[tactic(auto, using(crate::specs::Lawful::sizes))]
    fn road_count(&self, node: &Station) -> u16 {
        self.roads(node.id).len() as u16
    }

    #[tactic(auto, using(crate::specs::Lawful::sizes))]
    fn road(&self, node: &Station, rank: u16) -> Result<Option<(Station, Trims)>, Fault> {
        let roads = self.roads(node.id);
        let road = roads.start + rank as u32;
        if road >= roads.end {
            return Ok(None);
        }
        let at = self.road_at(road);
        let target = Station {
            id: word(self.bytes, at),
        };
        Ok(Some((target, cost(self.bytes, at + 4))))
    }

    fn guess(&self, node: &Station) -> Trims {
        self.station_at(node.id)
            .map_or(Trims::zero(), |at| cost(self.bytes, at + 4))
    }

    fn goal(&self, node: &Station) -> bool {
        self.station_at(node.id)
            .is_some_and(|at| last_word(self.bytes, at) >= GOAL)
    }
}
