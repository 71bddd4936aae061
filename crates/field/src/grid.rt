// A field as a graph: its nodes are cells and its costs milliseconds.
ghost use Rattle.std.specs.Prelude.{◌≡◌, ℕ, ◌*◌, true, length, Ok, slice_index, option_map};
ghost use Rattle.graph.specs.Answers.{road_of};
ghost use Rattle.kinds.specs.Cell.{cell_key};
ghost use Rattle.field.specs.Checking.{in_range, is_cell, verdict};
ghost use Rattle.field.specs.Cells.{inside, zone_in, beside, step_in, guess_at};
ghost use Rattle.field.specs.Means.{field_held, field_zone, field_count, field_road, field_goal, field_guess, HasTrueGuess};
ghost use Rattle.field.specs.Laws.{field_lawful, few_columns};

use crate::checking::SOLID;
use crate::layout::Layout;
use graph::{Fault, Graph};
use kinds::{Cell, CostKind, Millis};

// How many cells are beside a cell, each by a rank.
const SIDES: u16 = 4;

/// A layout with a map that has one byte a cell, row by row: a zone (0 to 63) or solid (255). `check` says whether they make
/// a field, and `Field::make` makes it.
///
/// ```
/// field::check(layout, map)?;
/// let field = Field::make(layout, map);
/// ```
#[derive(Clone, Copy)]
pub struct Field<'a> {
    layout: Layout,
    map: &'a [u8],
    ghost range: { in_range layout ≡ true },
    ghost whole: { length map.now ≡ layout.columns * layout.rows },
    ghost cells: { (i : ℕ) → is_cell (slice_index map.now i) ≡ true },
}

impl<'a> Field<'a> {
    /// The field of a layout and a map that the check passed. Its guess is true.
    #[tactic(auto, using(crate::proofs::Passed::passed, crate::proofs::Ahead::passed_true))]
    pub fn make(layout: Layout, map: &'a [u8]) -> Field<'a>
        requires { verdict layout map.now ≡ Ok tt }
        ensures plan { result.layout ≡ layout }
        ensures bytes { result.map.now ≡ map.now }
        ensures truth { HasTrueGuess result.layout result.map.now }
    {
        Field { layout, map }
    }

    // The zone of a cell that is held: of one inside that is not solid.
    fn zone_at(&self, cell: Cell) -> Option<u8>
        ensures { result ≡ zone_in self.now.layout self.now.map.now cell.column cell.row }
    {
        if !self.layout.contains(cell) {
            return None;
        }
        let columns = self.layout.columns as usize;
        let byte = self.map[cell.row as usize * columns + cell.column as usize];
        (byte != SOLID).then_some(byte)
    }

    // The cell beside a cell inside, by rank: 0 up, 1 right, 2 down, 3 left.
    fn beside(&self, cell: Cell, rank: u16) -> Option<Cell>
        requires { inside self.now.layout cell.column cell.row ≡ true }
        ensures { option_map (λ c. (c.column, c.row)) result ≡ beside cell.column cell.row rank }
    {
        let (column, row) = match rank {
            0 => (cell.column, cell.row.checked_sub(1)?),
            1 => (cell.column + 1, cell.row),
            2 => (cell.column, cell.row + 1),
            3 => (cell.column.checked_sub(1)?, cell.row),
            _ => return None,
        };
        Some(Cell { column, row })
    }

    // The road of a rank from a cell: open at one step if the cell and the one beside it are held.
    fn step(&self, cell: Cell, rank: u16) -> Option<(Cell, Millis)>
        ensures { road_of (λ c. cell_key c.column c.row) (λ c. c.millis) (Ok result)
            ≡ step_in self.now.layout self.now.map.now cell.column cell.row rank }
    {
        self.zone_at(cell)?;
        let to = self.beside(cell, rank)?;
        self.zone_at(to)?;
        let step = Millis {
            millis: self.layout.step,
        };
        Some((to, step))
    }

    // The guess at a cell.
    fn guess_at(&self, cell: Cell) -> Millis
        ensures { result.millis ≡ guess_at self.now.layout cell.column cell.row }
    {
        let target = self.layout.target;
        let steps = cell.column.abs_diff(target.column) as u32
            + cell.row.abs_diff(target.row) as u32;
        Millis {
            millis: steps * self.layout.step,
        }
    }
}

impl<'a> Graph for Field<'a> {
    type Node = Cell;

    type Cost = Millis;

    ghost holds = { λ f. field_held f.layout f.map.now };

    ghost zones = { λ f. field_zone f.layout f.map.now };

    ghost counts = { λ f. field_count f.layout f.map.now };

    ghost roads = { λ f. field_road f.layout f.map.now };

    ghost guesses = { λ f. field_guess f.layout f.map.now };

    ghost goals = { λ f. field_goal f.layout f.map.now };

    ghost lawful = { λ f. field_lawful f.layout f.map.now (few_columns f.layout f.range) f.cells };

    fn held(&self, node: &Cell) -> bool {
        self.zone_at(*node).is_some()
    }

    fn zone(&self, node: &Cell) -> u8 {
        self.zone_at(*node).unwrap_or(0)
    }

    fn road_count(&self, node: &Cell) -> u16 {
        if self.held(node) { SIDES } else { 0 }
    }

    #[tactic(auto, using(crate::specs::Laws::column_of_key, crate::specs::Laws::row_of_key))]
    fn road(&self, node: &Cell, rank: u16) -> Result<Option<(Cell, Millis)>, Fault> {
        Ok(self.step(*node, rank))
    }

    fn guess(&self, node: &Cell) -> Millis {
        if !self.held(node) {
            return Millis::zero();
        }
        self.guess_at(*node)
    }

    fn goal(&self, node: &Cell) -> bool {
        self.held(node) && *node == self.layout.target
    }
}
