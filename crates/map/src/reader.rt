// A drawing read line by line.
ghost use Rattle.std.specs.Prelude.{◌≡◌, ◌⊎◌, true};
ghost use Rattle.map.specs.declared.mistake.Mistake.TheVariants.{Memory};
ghost use Rattle.map.specs.Rows.{ReadsRow};
ghost use Rattle.map.specs.Plans.{Said};
ghost use Rattle.map.specs.Headings.{plan_of, is_laid, KeepsFirst, TakesHeader};
ghost use Rattle.map.specs.Readings.{no_heading, TakesHeading, IsReading, PlanFrom, RowsFrom, end_read, Reads, HasOneReading};

use crate::drawing::{Drawing, Plan};
use crate::header::{Header, Size};
use crate::lines::NumberedLines;
use crate::mistake::{Mistake, Problem};
use crate::signs::byte_of;
use field::Layout;
use graph::Layer;
use kinds::{Cell, Millis};
use std::alloc::Global;
use std::marker::Model;

// What the lines before the map have said so far.
#[derive(Drop)]
struct Heading {
    size: Option<Size>,
    start: Option<Cell>,
    target: Option<Cell>,
    layers: Vec<Layer<Millis>>,
}

impl Model for Heading {
    ghost Value = { Said };

    ghost view = { λ h. record { size = h.size; start = h.start; target = h.target; layers = h.layers.items } };
}

// Keeps what a line says, if no line of its word came before.
fn keep<T: Copy>(place: &mut Option<T>, value: T) -> Result<(), Mistake>
    ensures { KeepsFirst place.old value result place.new }
{
    if place.is_some() {
        return Err(Mistake::Twice);
    }
    *place = Some(value);
    Ok(())
}

impl Heading {
    fn new(heap: Global) -> Heading
        ensures { result ≡ no_heading }
    {
        Heading {
            size: None,
            start: None,
            target: None,
            layers: Vec::new(heap),
        }
    }

    // The plan, if the size, the start and the target are given.
    fn plan(self) -> Option<Plan>
        ensures { result ≡ plan_of self }
    {
        let size = self.size?;
        Some(Plan {
            layout: Layout {
                columns: size.columns,
                rows: size.rows,
                step: size.step,
                target: self.target?,
            },
            start: self.start?,
            layers: self.layers,
        })
    }

    // Takes what the next line says, and answers whether the map begins below it.
    fn take(&mut self, header: Header) -> Result<bool, Mistake>
        ensures takes { (result ≡ Err Memory) ⊎ TakesHeader self.old header result self.new }
        ensures laid { (result ≡ Err Memory) → is_laid header ≡ true }
    {
        match header {
            Header::Blank => {}
            Header::Field(size) => keep(&mut self.size, size)?,
            Header::Start(cell) => keep(&mut self.start, cell)?,
            Header::Target(cell) => keep(&mut self.target, cell)?,
            Header::Fence(barred) => {
                let layer = Layer::Fence { barred };
                self.layers.push(layer)?
            }
            Header::Toll(charge) => {
                let cost = charge.cost;
                let charged = charge.zones;
                let layer = Layer::Toll { cost, charged };
                self.layers.push(layer)?
            }
            Header::Map => return Ok(true),
        }
        Ok(false)
    }

    // Takes what the words of the next line say.
    fn take_line(&mut self, line: &str) -> Result<bool, Mistake>
        ensures { (result ≡ Err Memory) ⊎ TakesHeading self.old line.now result self.new }
    {
        self.take(line.parse()?)
    }
}

// The plan that the lines up to the map say.
fn read_plan(heap: Global, lines: &mut NumberedLines) -> Result<Plan, Problem>
    ensures { IsReading (PlanFrom lines.old) (λ plan. (plan, lines.new)) result }
{
    let mut heading = Heading::new(heap);
    while let Some((number, line)) = lines.next() {
        match heading.take_line(line) {
            Ok(false) => {}
            Ok(true) => return heading.plan().ok_or(Mistake::Early.at(number)),
            Err(mistake) => return Err(mistake.at(number)),
        }
    }
    Err(Mistake::NoMap.at(lines.next_number()))
}

// Adds the bytes of a row to those of the rows above it.
#[tactic(auto, using(std::proofs::lemmas::Str::chars_from_encodes, std::proofs::lemmas::Bool::Decides::nat_tests))]
fn add_row(map: &mut Vec<u8>, columns: u16, line: &str) -> Result<(), Mistake>
    ensures { ReadsRow map.old.items columns line.now result map.new.items }
{
    let row = line.trim_end();
    let found = row.chars().count();
    if found != columns as usize {
        return Err(Mistake::Width { columns, found });
    }
    for (column, sign) in row.chars().enumerate() {
        map.push(byte_of(sign).ok_or(Mistake::Sign { column, sign })?)?;
    }
    Ok(())
}

// The bytes of the map's rows.
#[tactic(auto, using(crate::proofs::ReadingLemmas::rows_done))]
fn read_rows(heap: Global, lines: &mut NumberedLines, layout: Layout) -> Result<Vec<u8>, Problem>
    ensures { IsReading (RowsFrom layout lines.old) (λ map. (map.items, lines.new)) result }
{
    let Layout { columns, rows, .. } = layout;
    let mut map = Vec::new(heap);
    for found in 0..rows {
        let Some((number, line)) = lines.next() else {
            return Err(Mistake::Short { rows, found }.at(lines.next_number()));
        };
        // After `.map_err(..)?` the rest would want a proof of its own.
        if let Err(mistake) = add_row(&mut map, columns, line) {
            return Err(mistake.at(number));
        }
    }
    Ok(map)
}

// Nothing, if the lines below so many rows are blank.
fn read_end(lines: NumberedLines, rows: u16) -> Result<(), Problem>
    ensures { result ≡ end_read rows lines.entry.taken lines.entry.lines }
{
    for (number, line) in lines {
        if !line.trim_end().is_empty() {
            return Err(Mistake::Long { rows }.at(number));
        }
    }
    Ok(())
}

// The drawing that a text is, or the first problem with it.
#[tactic(auto, using(crate::proofs::OneReading::one_reading))]
pub fn read(heap: Global, text: &str) -> Result<Drawing, Problem>
    ensures only { HasOneReading text.now }
    ensures reading { IsReading (Reads text.now) (λ drawing. (drawing.plan, drawing.map.items)) result }
{
    let mut lines = NumberedLines::of(text);
    let plan = read_plan(heap, &mut lines)?;
    let map = read_rows(heap, &mut lines, plan.layout)?;
    read_end(lines, plan.layout.rows)?;
    Ok(Drawing { plan, map })
}
