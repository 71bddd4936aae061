// Why a planner cannot be made.
use std::error::Error;
use std::fmt;

/// Why a planner cannot be made.
#[derive(Clone, Copy, PartialEq, Eq, Debug)]
pub enum MakeRefusal {
    /// The rows are not 1 to 32,768, or the links more than 65,535, or a part has not as many entries as there are rows.
    Counts,
}

// The number by which users know it.
impl From<MakeRefusal> for u8 {
    ghost use Rattle.std.specs.Prelude.{◌≡◌};
    ghost use Rattle.planner.specs.Making.{make_number};

    ghost from_gives = { λ refusal number. number ≡ make_number refusal };

    fn from(refusal: MakeRefusal) -> u8 {
        match refusal {
            MakeRefusal::Counts => 1,
        }
    }
}

// What was expected, in words. By hand: what a derive writes has no contract.
impl fmt::Display for MakeRefusal {
    ghost use Rattle.std.specs.Prelude.{Some};
    ghost use Rattle.planner.specs.Making.{make_message};

    ghost output = { λ refusal. Some (make_message refusal) };

    fn fmt<W: fmt::Write>(&self, f: &mut fmt::Formatter<W>) -> fmt::Result {
        match self {
            MakeRefusal::Counts => f.write_str(
                "expected 1 to 32768 rows, as many entries of each other part, and at most 65535 links",
            ),
        }
    }
}

impl Error for MakeRefusal {}
