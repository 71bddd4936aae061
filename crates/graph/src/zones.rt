// Tables of the zones.
ghost use Rattle.std.specs.Prelude.{◌≡◌, nat_lt};
ghost use Rattle.graph.specs.Means.{means};
ghost use Rattle.graph.specs.Zones.{only_zone, in_table};

use crate::questions::Graph;
use kinds::NodeKind;

/// How many zones there are: zones 0 to 63.
pub const ZONES: usize = 64;

/// Whether a byte is that of a zone.
pub fn is_zone(byte: u8) -> bool
    ensures { result ≡ nat_lt byte 64 }
{
    (byte as usize) < ZONES
}

/// A table of the zones: for each, whether the table has it.
pub type Zones = [bool; ZONES];

/// The table that has this zone and no other; it has none where the number is none of a zone.
///
/// ```
/// let mut zones = only(7);
/// zones[9] = true;
/// ```
pub fn only(zone: u8) -> Zones
    ensures { result ≡ only_zone zone }
{
    let mut table = [false; ZONES];
    if is_zone(zone) {
        table[zone as usize] = true;
    }
    table
}

// Whether a table has the zone of a node.
pub(crate) fn zone_in<G: Graph>(table: &Zones, graph: &G, node: &G::Node) -> bool
    ensures { result ≡ in_table table.now (means G.Graph graph.now) (G.Node.key node.now) }
{
    table[graph.zone(node) as usize]
}
