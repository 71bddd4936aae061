// The searches over a drawing, and the lines that say what they came to.
ghost use Rattle.std.specs.Prelude.{◌≡◌, ◌<◌};
ghost use Rattle.map.specs.Ground.{ground, ground_guess, meant, guessed, PileSurveyed, PileCalls, Surveyed, SurveyCalls, HasRoom};

use crate::canvas::{Canvas, text_of};
use crate::drawing::Drawing;
use field::{Field, check};
use graph::{Fault, Layers};
use kinds::{Cell, Millis};
use planner::{Planner, Sizes};
use report::Found;
use routes::{Desk, Memory, PricedRoute, RouteRefusal};
use search::{Method, SeekRefusal};
use std::fmt;

// A field under fences and tolls.
type Pile<'a> = Layers<'a, Field<'a>, Millis>;

// A refusal of a search in words, which are those of this program: what it calls a toll another graph may not have.
#[derive(Clone, Copy)]
struct Reason(SeekRefusal);

impl fmt::Display for Reason {
    ghost use Rattle.std.specs.Prelude.{Some};
    ghost use Rattle.map.specs.Reasons.{reason_of};

    ghost output = { λ reason. Some (reason_of reason.0) };

    fn fmt<W: fmt::Write>(&self, f: &mut fmt::Formatter<W>) -> fmt::Result {
        match self.0 {
            SeekRefusal::NotHeld => f.write_str("the start is outside, solid or fenced off"),
            SeekRefusal::FaultyRoad {
                row,
                fault: Fault { rank, depth },
            } => write!(
                f,
                "a toll does not fit, at the planner's row {row}, rank {rank}, depth {depth}"
            ),
            SeekRefusal::ZeroWeight { row, rank } => write!(
                f,
                "a step weighs nothing, at the planner's row {row}, rank {rank}"
            ),
            SeekRefusal::NoSum {
                row,
                rank: Some(rank),
            } => write!(
                f,
                "a cost does not fit, at the planner's row {row}, rank {rank}"
            ),
            SeekRefusal::NoSum { row, rank: None } => {
                write!(f, "a cost does not fit, at the planner's row {row}")
            }
            SeekRefusal::NoRow { row, rank } => write!(
                f,
                "no row is left, at the planner's row {row}, rank {rank}"
            ),
            SeekRefusal::NoLink { row, rank } => write!(
                f,
                "no link is left, at the planner's row {row}, rank {rank}"
            ),
        }
    }
}

// Seeks a route over a pile, in the room for it: a cheapest one, at its cost, since the guess of every field is true.
fn cheapest<'r>(
    pile: &Pile,
    method: Method,
    planner: &mut Planner<Cell, Millis>,
    start: Cell,
    room: &'r mut [Cell],
) -> Result<Option<PricedRoute<'r, Cell, Millis>>, RouteRefusal>
    ensures answers { PileSurveyed pile.now start result }
    ensures calls { PileCalls pile.now start method room.old planner.old result planner.new }
    ensures room { HasRoom planner.old room.old result }
{
    PricedRoute::seek(planner, method, pile, start, room)
}

// A drawing that is searched, with its pile, and where the lines go that say what the searches come to.
#[derive(Drop)]
struct Survey<'a, R> {
    rt: &'a R,
    drawing: &'a Drawing,
    pile: Pile<'a>,
    // The rows of the map can be cut, and the pile means the drawing's graph, with its guess.
    ghost wide: { 0 < drawing.now.plan.layout.columns },
    ghost drawn: { meant pile ≡ ground drawing.now },
    ghost guesses: { guessed pile ≡ ground_guess drawing.now },
}

impl<R: Print + AllocGlobal> Survey<'_, R> {
    // Prints a route with its cost.
    fn print_route(&self, found: Found<Millis>, route: &[Cell]) -> anyhow::Result<()> {
        println!(self.rt; "{found}")?;
        let canvas = Canvas::draw(self.rt.alloc(), self.drawing, route)?;
        for row in canvas.signs.chunks(canvas.columns as usize) {
            self.rt.println(text_of(self.rt.alloc(), row)?)?;
        }
        Ok(())
    }

    // Seeks a route over the drawing, in the room for it: a cheapest one, at its cost, or none where there is none. Room for as
    // many cells as the planner has rows is enough.
    fn route<'r>(
        &self,
        method: Method,
        planner: &mut Planner<Cell, Millis>,
        room: &'r mut [Cell],
    ) -> Result<Option<PricedRoute<'r, Cell, Millis>>, RouteRefusal>
        ensures answers { Surveyed self.now.drawing.now result }
        ensures calls { SurveyCalls self.now.drawing.now method room.old planner.old result planner.new }
        ensures room { HasRoom planner.old room.old result }
    {
        let plan = &self.drawing.plan;
        cheapest(&self.pile, method, planner, plan.start, room)
    }

    // Runs one search, and prints what it came to.
    fn report(&self, method: Method, desk: &mut Desk<Cell, Millis>) -> anyhow::Result<()> {
        match self.route(method, &mut desk.planner, desk.out) {
            Ok(Some(PricedRoute { cost, route })) => {
                self.print_route(Found { method, cost }, route.nodes)
            }
            Ok(None) => Ok(println!(self.rt; "{method} none")?),
            Err(RouteRefusal::Seek(refusal)) => {
                let reason = Reason(refusal);
                Ok(println!(self.rt; "{method} refused {}: {reason}", u8::from(refusal))?)
            }
            Err(RouteRefusal::HandOut(refusal)) => {
                Ok(println!(self.rt; "{method} refused {}", u8::from(refusal))?)
            }
        }
    }
}

// Runs all searches over the drawing, and prints what each came to, or that the field is refused.
pub fn run<R: Print + AllocGlobal>(rt: &R, drawing: &Drawing) -> anyhow::Result<()> {
    let layout = drawing.plan.layout;
    let map = drawing.map.as_slice();
    if let Err(refusal) = check(layout, map) {
        return Ok(println!(rt; "field refused {}: {refusal}", u8::from(refusal))?);
    }
    let field = Field::make(layout, map);
    // A link for each two cells beside one another is enough: one of them costs less, and only that one is the other's parent.
    let links = (2 * map.len()).saturating_sub(1);
    if let Err(refusal) = planner::check(Sizes::of(map.len(), links)) {
        return Ok(println!(rt; "planner refused {}", u8::from(refusal))?);
    }
    let mut memory = Memory::new(rt.alloc(), Cell { column: 0, row: 0 }, map.len(), links)?;
    let mut desk = memory.desk()?;
    let survey = Survey {
        rt,
        drawing,
        pile: Layers::new(field, drawing.plan.layers.as_slice()),
    };
    for method in Method::ALL {
        survey.report(method, &mut desk)?;
    }
    Ok(())
}
