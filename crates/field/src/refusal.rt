// Refusals of fields.
ghost use Rattle.std.specs.Prelude.{◌≡◌, Some};

use std::error::Error;
use std::fmt;

/// Why a field cannot be made.
#[derive(Clone, Copy, PartialEq, Eq, Debug)]
pub enum FieldRefusal {
    /// The columns are not 1 to 256, or the rows not 1 to 128, or the step not 1 to 1,000, or the target is outside.
    Size,
    /// The map does not have one byte for each cell.
    Length,
    /// The byte at this position, and at none before, is neither a zone (0 to 63) nor solid (255).
    Byte { position: usize },
}

/// The number by which users know it: 2 for the layout, 3 for the length of the map, 4 for a byte.
impl From<FieldRefusal> for u8 {
    ghost use Rattle.field.specs.Checking.{refusal_number};

    ghost from_gives = { λ refusal n. n ≡ refusal_number refusal };

    fn from(refusal: FieldRefusal) -> u8 {
        match refusal {
            FieldRefusal::Size => 2,
            FieldRefusal::Length => 3,
            FieldRefusal::Byte { .. } => 4,
        }
    }
}

// By hand: what a derive writes has no contract.
impl fmt::Display for FieldRefusal {
    ghost use Rattle.field.specs.Checking.{message_of};

    ghost output = { λ refusal. Some (message_of refusal) };

    fn fmt<W: fmt::Write>(&self, f: &mut fmt::Formatter<W>) -> fmt::Result {
        match self {
            FieldRefusal::Size => f.write_str(
                "expected 1 to 256 columns, 1 to 128 rows, a step of 1 to 1000, and the target inside",
            ),
            FieldRefusal::Length => f.write_str("expected one cell for each column of each row"),
            FieldRefusal::Byte { position } => {
                write!(
                    f,
                    "the cell at position {position} is no zone and not solid"
                )
            }
        }
    }
}

impl Error for FieldRefusal {}
