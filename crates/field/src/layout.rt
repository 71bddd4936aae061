// What a field is, but for its map.
ghost use Rattle.std.specs.Prelude.{◌≡◌};

use kinds::Cell;

/// The size of a field, what a step on it costs, and where its routes end.
#[derive(Clone, Copy, PartialEq, Eq, Debug)]
pub struct Layout {
    pub columns: u16,
    pub rows: u16,
    /// What one step costs, in milliseconds.
    pub step: u32,
    pub target: Cell,
}

// The most columns, rows and milliseconds a step.
const MOST_COLUMNS: u16 = 256;

const MOST_ROWS: u16 = 128;

const LONGEST_STEP: u32 = 1000;

impl Layout {
    ghost use Rattle.field.specs.Cells.{inside};
    ghost use Rattle.field.specs.Checking.{in_range};

    // Whether a cell is inside.
    pub(crate) fn contains(&self, cell: Cell) -> bool
        ensures { result ≡ inside self.now cell.column cell.row }
    {
        cell.column < self.columns && cell.row < self.rows
    }

    // Whether columns, rows, step and target are in range.
    pub(crate) fn is_in_range(&self) -> bool
        ensures { result ≡ in_range self.now }
    {
        (1..=MOST_COLUMNS).contains(&self.columns)
            && (1..=MOST_ROWS).contains(&self.rows)
            && (1..=LONGEST_STEP).contains(&self.step)
            && self.contains(self.target)
    }
}
