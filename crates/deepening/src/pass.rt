// A pass of the search: it tries the paths within a bound.
ghost use Rattle.std.specs.Prelude.{◌≡◌, Some};
ghost use Rattle.search.specs.Deepening.{least};
ghost use Rattle.deepening.specs.Views.{noted_of};

use kinds::CostKind;

// The bound of a pass, and the least sum above it that was noted.
#[derive(Clone, Copy, Debug)]
pub struct Pass<C> {
    pub bound: C,
    pub noted: Option<C>,
}

impl<C: CostKind> Pass<C> {
    // Notes a sum above the bound.
    pub(crate) fn note(&mut self, sum: C)
        ensures bound { self.new.bound ≡ self.old.bound }
        ensures noted { noted_of C.weight self.new.noted
            ≡ Some (least (noted_of C.weight self.old.noted) (C.weight sum)) }
    {
        let least = match self.noted {
            None => sum,
            Some(noted) => noted.min(sum),
        };
        self.noted = Some(least);
    }
}
