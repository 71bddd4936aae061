// Stations: nodes by number.
ghost use Rattle.std.specs.Prelude.{◌≡◌, ℕ};
ghost use Rattle.std.proofs.Common.{rules};

use crate::node_kind::NodeKind;
use std::fmt;

// A station; its number is its key.
#[derive(Clone, Copy, PartialEq, Eq, Debug)]
pub struct Station {
    pub id: u32,
}

impl fmt::Display for Station {
    ghost use Rattle.std.specs.Prelude.{Some};
    ghost use Rattle.std.specs.Fmt.{decimal, styled_decimal};

    ghost output = { λ s. Some (decimal s.id) };

    ghost styled_output = { λ s spec. Some (styled_decimal spec s.id) };

    fn fmt<W: fmt::Write>(&self, f: &mut fmt::Formatter<W>) -> fmt::Result {
        self.id.fmt(f)
    }
}

impl NodeKind for Station {
    ghost key = { λ s. s.id };

    ghost marks = { λ s. s.id };

    ghost equal = { Prim.search rules };

    ghost alike = { Prim.search rules };

    fn mark(&self) -> u32 {
        self.id
    }
}
