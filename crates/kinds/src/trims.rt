// Trims with milliseconds: a cost of two parts, of which a trim outweighs all milliseconds.
ghost use Rattle.std.specs.Prelude.{◌≡◌, ℕ, ◌+◌, ◌≤◌};
ghost use Rattle.kinds.specs.Trims.{weight_of, trims_kind};
ghost use Rattle.std.proofs.Common.{rules, arith};

use crate::cost_kind::CostKind;
use std::cmp::Ordering;
use std::fmt;

// A cost in thread trims and milliseconds; it weighs trims × 4,294,967,296 + milliseconds. The milliseconds stand first in memory, so
// that both are read as the one number by which costs are compared.
#[derive(Clone, Copy, PartialEq, Eq, Debug)]
pub struct Trims {
    pub millis: u32,
    pub trims: u32,
    ghost few: { trims ≤ 4294967295 },
    ghost small: { millis ≤ 4294967295 },
}

impl Trims {
    // What it weighs.
    #[inline(always)]
    fn weight(self) -> u64
        ensures { result ≡ weight_of self.trims self.millis }
    {
        self.trims as u64 * 4_294_967_296 + self.millis as u64
    }
}

// By weight: trims first, and then milliseconds.
impl Ord for Trims {
    ghost use Rattle.std.specs.Ordering.{nat_cmp, on};
    ghost use Rattle.std.specs.Cmp.Rules.{comparing};

    ghost cmp = { on (λ c. weight_of c.trims c.millis) nat_cmp };

    ghost total = { Prim.search (comparing, rules) };

    ghost matches_partial_cmp = { Prim.search (comparing, rules) };

    ghost matches_eq = { Prim.search (comparing, rules) };

    #[inline(always)]
    fn cmp(&self, other: &Trims) -> Ordering {
        self.weight().cmp(&other.weight())
    }
}

impl PartialOrd for Trims {
    ghost use Rattle.std.specs.Ordering.{nat_cmp, on, as_partial_cmp};
    ghost use Rattle.std.specs.Cmp.{partial_order_from_own_ties};
    ghost use Rattle.std.specs.Cmp.Rules.{comparing};

    ghost partial_cmp = { as_partial_cmp (on (λ c. weight_of c.trims c.millis) nat_cmp) };

    ghost laws = { partial_order_from_own_ties (Prim.search (comparing, rules)) (Prim.search (comparing, rules)) };

    #[inline(always)]
    fn partial_cmp(&self, other: &Trims) -> Option<Ordering> {
        Some(self.cmp(other))
    }
}

// Trims, then milliseconds, each in the width asked for.
impl fmt::Display for Trims {
    ghost use Rattle.std.specs.Prelude.{Some, ◌++◌, codes};
    ghost use Rattle.std.specs.Fmt.{decimal, styled_decimal};

    ghost output = { λ s. Some (decimal s.trims ++ codes " " ++ decimal s.millis) };

    ghost styled_output = { λ s spec.
        Some (styled_decimal spec s.trims ++ codes " " ++ styled_decimal spec s.millis) };

    fn fmt<W: fmt::Write>(&self, f: &mut fmt::Formatter<W>) -> fmt::Result {
        self.trims.fmt(f)?;
        f.write_str(" ")?;
        self.millis.fmt(f)
    }
}

impl CostKind for Trims {
    ghost weight = { λ c. weight_of c.trims c.millis };

    ghost kind = { trims_kind };

    ghost ordered = { Prim.search rules };

    ghost apart = { Prim.grind (arith, Self.row.coded.inj) };

    ghost most = { Prim.search rules };

    ghost bound = { Prim.search rules };

    ghost zero_first = { Prim.search rules };

    ghost zero_last = { Prim.search rules };

    ghost small = { Prim.search rules };

    fn zero() -> Trims {
        Trims {
            trims: 0,
            millis: 0,
        }
    }

    fn greatest() -> Trims {
        Trims {
            trims: u32::MAX,
            millis: u32::MAX,
        }
    }

    fn sum(self, other: Trims) -> Option<Trims> {
        let trims = self.trims.checked_add(other.trims)?;
        let millis = self.millis.checked_add(other.millis)?;
        Some(Trims { trims, millis })
    }
}
