// What a cost kind is: a weight for each cost, by which costs are ordered, and which sums fit.
ghost use Rattle.std.specs.Prelude.{◌≡◌, ℕ, ◌+◌, ◌≤◌, true};
ghost use Rattle.std.specs.Ordering.{nat_cmp};
ghost use Rattle.kinds.specs.Kind.{Kind, IsBounded, sum_of, sum_in};

pub trait CostKind: Copy + Ord {
    // What a cost weighs; which two weights have a sum that fits, and what the greatest cost weighs.
    ghost weight: { Self → ℕ };

    ghost kind: { Kind };

    fn zero() -> Self
        ensures { weight result ≡ 0 };

    // The cost that no other outweighs.
    fn greatest() -> Self
        ensures { weight result ≡ kind.greatest };

    // The cost that weighs both together, or nothing where it does not fit.
    fn sum(self, other: Self) -> Option<Self>
        ensures { sum_of weight result ≡ sum_in kind (weight self) (weight other) };

    // Costs are ordered by their weights. No two weigh the same, and none outweighs the greatest.
    ghost ordered: { (a b : Self) → Self.cmp a b ≡ nat_cmp (weight a) (weight b) };

    ghost apart: { (a b : Self) → weight a ≡ weight b → a ≡ b };

    ghost most: { (a : Self) → weight a ≤ kind.greatest };

    // No sum that fits outweighs the greatest.
    ghost bound: { IsBounded kind };

    // Zero plus a cost fits on either side, and so does every sum weighing at most 65,535.
    ghost zero_first: { (a : Self) → kind.fits 0 (weight a) ≡ true };

    ghost zero_last: { (a : Self) → kind.fits (weight a) 0 ≡ true };

    ghost small: { (a b : Self) →
        weight a + weight b ≤ 65535 → kind.fits (weight a) (weight b) ≡ true };
}
