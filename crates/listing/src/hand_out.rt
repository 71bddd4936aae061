// The routes to the sinks, one at each hand-out.
ghost use Rattle.std.specs.Prelude.{◌≡◌, ℕ, ◌<◌, ◌≤◌, length};
ghost use Rattle.search.specs.Members.{In};
ghost use Rattle.listing.specs.Handing.{Falling, Ready, AllCome, ComeByRows, latest_turn, GoesOn};
ghost use Rattle.listing.specs.Handing.{Gives, Leaves, Within, Untouched};

use crate::odometer::{begin_at, survey, turn_at, write_back};
use crate::sinks::Sinks;
use kinds::NodeKind;
use links::parents::Parents;
use search::HandOutRefusal;
use store::register::Register;

// Chooses the latest route to the latest sink, if there is one.
fn begin_latest(parents: &mut Parents, sinks: &Sinks)
    requires falling { Falling parents.old.lists }
    requires inside { (s : ℕ) → In s sinks.now.sinks → s < length parents.old.lists }
    ensures ready { Ready parents.new.lists parents.new.left sinks.now.sinks }
    ensures come { AllCome parents.old.lists parents.new.left sinks.now.sinks }
    ensures lists { parents.new.lists ≡ parents.old.lists }
    ensures room { parents.new.room ≡ parents.old.room }
    ensures rows { parents.new.rows ≡ parents.old.rows }
    ensures keeps { parents.new.keeps ≡ parents.old.keeps }
{
    if let Some(sink) = sinks.latest() {
        begin_at(parents, sink);
    }
}

// Makes the hand-out ready: every route to a sink is still to come.
pub fn begin(parents: &mut Parents, sinks: &Sinks)
    requires falling { Falling parents.old.lists }
    requires inside { (s : ℕ) → In s sinks.now.sinks → s < length parents.old.lists }
    ensures ready { Ready parents.new.lists parents.new.left sinks.now.sinks }
    ensures come { ComeByRows parents.old.lists parents.new.left sinks.now.sinks }
    ensures lists { parents.new.lists ≡ parents.old.lists }
    ensures room { parents.new.room ≡ parents.old.room }
    ensures rows { parents.new.rows ≡ parents.old.rows }
    ensures keeps { parents.new.keeps ≡ parents.old.keeps }
{
    begin_latest(parents, sinks);
}

// Goes on to the next route, where a row on this one turns or none does.
fn advance(parents: &mut Parents, sinks: &mut Sinks, turns: Option<u16>)
    requires some { 0 < length sinks.old.sinks }
    requires ready { Ready parents.old.lists parents.old.left sinks.old.sinks }
    requires many { length parents.old.left ≡ length parents.old.lists }
    requires turns { turns ≡ latest_turn parents.old sinks.old }
    ensures ready { Ready parents.new.lists parents.new.left sinks.new.sinks }
    ensures come { GoesOn parents.old sinks.old parents.new sinks.new }
    ensures lists { parents.new.lists ≡ parents.old.lists }
    ensures room { parents.new.room ≡ parents.old.room }
    ensures rows { parents.new.rows ≡ parents.old.rows }
    ensures keeps { parents.new.keeps ≡ parents.old.keeps }
    ensures places { sinks.new.places ≡ sinks.old.places }
{
    match turns {
        Some(row) => turn_at(parents, row),
        None => {
            sinks.drop_latest();
            begin_latest(parents, sinks);
        }
    }
}

// Writes the nodes of the next route into the first entries, that of the start first, and answers how many there are; or
// answers that no route is left, before it looks at the output. A refusal writes nothing and keeps the route as the next one.
pub fn hand_out<N: NodeKind, V: Copy>(
    rows: &Register<N, V>,
    parents: &mut Parents,
    sinks: &mut Sinks,
    out: &mut [N],
) -> Result<Option<usize>, HandOutRefusal>
    requires ready { Ready parents.old.lists parents.old.left sinks.old.sinks }
    requires rows { length parents.old.lists ≤ length rows.now.listed }
    ensures ready { Ready parents.new.lists parents.new.left sinks.new.sinks }
    ensures gives { Gives N.key rows.now parents.old sinks.old out.old result out.new }
    ensures leaves { Leaves N.key rows.now parents.old sinks.old out.old parents.new sinks.new }
    ensures within { Within result (length out.old) }
    ensures rest { Untouched result out.old out.new }
    ensures lists { parents.new.lists ≡ parents.old.lists }
    ensures room { parents.new.room ≡ parents.old.room }
    ensures rows { parents.new.rows ≡ parents.old.rows }
    ensures keeps { parents.new.keeps ≡ parents.old.keeps }
    ensures places { sinks.new.places ≡ sinks.old.places }
{
    let Some(sink) = sinks.latest() else {
        return Ok(None);
    };
    let (needed, turns) = survey(parents, sink);
    if out.len() < needed {
        return Err(HandOutRefusal::Short { needed });
    }
    write_back(rows, parents, sink, &mut out[..needed]);
    advance(parents, sinks, turns);
    Ok(Some(needed))
}
