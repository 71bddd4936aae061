// Cells: nodes by column and row.
ghost use Rattle.std.specs.Prelude.{◌≡◌, ℕ, ◌+◌, ◌*◌, ◌≤◌};
ghost use Rattle.kinds.specs.Cell.{cell_key, cell_mark};
ghost use Rattle.std.proofs.Common.{rules};

use crate::node_kind::NodeKind;

// A cell of a map; its key is row × 65,536 + column.
#[derive(Clone, Copy, PartialEq, Eq, Debug)]
pub struct Cell {
    pub column: u16,
    pub row: u16,
    ghost narrow: { column ≤ 65535 },
}

impl NodeKind for Cell {
    ghost key = { λ c. cell_key c.column c.row };

    ghost marks = { λ c. cell_mark c.column c.row };

    ghost equal = { Prim.search rules };

    ghost alike = { Prim.search rules };

    fn mark(&self) -> u32 {
        self.row as u32 * 257 + self.column as u32
    }
}
