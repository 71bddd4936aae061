// Milliseconds: a cost of one part.
ghost use Rattle.std.specs.Prelude.{◌≡◌, ℕ, ◌+◌, ◌≤◌};
ghost use Rattle.kinds.specs.Millis.{millis_kind};
ghost use Rattle.std.proofs.Common.{rules, arith};

use crate::cost_kind::CostKind;
use std::fmt;

// A cost in milliseconds, which it weighs.
#[derive(Clone, Copy, PartialEq, Eq, PartialOrd, Ord, Debug)]
pub struct Millis {
    pub millis: u32,
    ghost small: { millis ≤ 4294967295 },
}

impl fmt::Display for Millis {
    ghost use Rattle.std.specs.Prelude.{Some};
    ghost use Rattle.std.specs.Fmt.{decimal, styled_decimal};

    ghost output = { λ s. Some (decimal s.millis) };

    ghost styled_output = { λ s spec. Some (styled_decimal spec s.millis) };

    fn fmt<W: fmt::Write>(&self, f: &mut fmt::Formatter<W>) -> fmt::Result {
        self.millis.fmt(f)
    }
}

impl CostKind for Millis {
    ghost weight = { λ c. c.millis };

    ghost kind = { millis_kind };

    ghost ordered = { Prim.search rules };

    ghost apart = { Prim.grind (arith, Self.row.coded.inj) };

    ghost most = { Prim.search rules };

    ghost bound = { Prim.search rules };

    ghost zero_first = { Prim.search rules };

    ghost zero_last = { Prim.search rules };

    ghost small = { Prim.search rules };

    fn zero() -> Millis {
        Millis { millis: 0 }
    }

    fn greatest() -> Millis {
        Millis { millis: u32::MAX }
    }

    fn sum(self, other: Millis) -> Option<Millis> {
        let millis = self.millis.checked_add(other.millis)?;
        Some(Millis { millis })
    }
}
