// The choice of each row along a route.
ghost use Rattle.std.specs.Prelude.{◌≡◌, ◌<◌, ◌≤◌, map, length};
ghost use Rattle.links.specs.Listings.{at};
ghost use Rattle.listing.specs.Odometer.{End};
ghost use Rattle.listing.specs.Handing.{par, Falling, SoundAt, route, next_turn, begun, gone_on, route_keys};

use kinds::NodeKind;
use links::parents::Parents;
use store::register::Register;

// How many rows the chosen route has, and the row nearest the start on it that has an older parent left.
pub(crate) fn survey(parents: &Parents, sink: u16) -> (usize, Option<u16>)
    requires inside { sink < length parents.now.lists }
    requires falling { Falling parents.now.lists }
    requires sound { SoundAt parents.now.lists parents.now.left sink }
    ensures count { result.0 ≡ length (route parents.now.lists parents.now.left sink) }
    ensures turn { result.1 ≡ next_turn parents.now.lists parents.now.left sink }
    ensures many { length parents.now.left ≡ length parents.now.lists }
{
    let all = parents.len();
    let mut best = None;
    let mut row = sink;
    for step in 0..all {
        let Some(parent) = parents.chosen(row) else {
            return (step + 1, best);
        };
        if parents.has_older(row) {
            best = Some(row);
        }
        row = parent;
    }
    (all, best)
}

// Writes the nodes of the chosen route, that of the start first.
pub(crate) fn write_back<N: NodeKind, V: Copy>(
    rows: &Register<N, V>,
    parents: &Parents,
    sink: u16,
    out: &mut [N],
)
    requires inside { sink < length parents.now.lists }
    requires falling { Falling parents.now.lists }
    requires sound { SoundAt parents.now.lists parents.now.left sink }
    requires rows { length parents.now.lists ≤ length rows.now.listed }
    requires long { length out.old ≡ length (route parents.now.lists parents.now.left sink) }
    ensures { map N.key out.new ≡ route_keys N.key rows.now parents.now sink }
{
    let mut row = sink;
    for place in (0..out.len()).rev() {
        out[place] = rows.node(row);
        if let Some(parent) = parents.chosen(row) {
            row = parent;
        }
    }
}

// Chooses the latest parent of each row from a sink to the start.
pub(crate) fn begin_at(parents: &mut Parents, sink: u16)
    requires inside { sink < length parents.old.lists }
    requires falling { Falling parents.old.lists }
    ensures many { length parents.old.left ≡ length parents.old.lists }
    ensures begun { parents.new ≡ begun parents.old sink }
{
    let mut row = sink;
    for step in 0..parents.len() {
        parents.rewind(row);
        let Some(parent) = parents.chosen(row) else {
            return;
        };
        row = parent;
    }
}

// A row goes on to its next older parent, and the rows nearer the start begin anew.
pub(crate) fn turn_at(parents: &mut Parents, row: u16)
    requires inside { row < length parents.old.lists }
    requires falling { Falling parents.old.lists }
    requires many { length parents.old.left ≡ length parents.old.lists }
    requires older { 1 < length (at parents.old.left row) }
    requires end { End (at parents.old.left row) (par parents.old.lists row) }
    ensures { parents.new ≡ gone_on parents.old row }
{
    parents.pass(row);
    if let Some(parent) = parents.chosen(row) {
        begin_at(parents, parent);
    }
}
