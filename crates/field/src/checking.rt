// The check before a field is made.
ghost use Rattle.std.specs.Prelude.{◌≡◌};
ghost use Rattle.field.specs.Checking.{is_cell, first_wrong, verdict};

use crate::layout::Layout;
use crate::refusal::FieldRefusal;
use graph::is_zone;

/// The byte of a solid cell.
pub const SOLID: u8 = 255;

// Whether the byte is a zone or solid.
fn is_cell(byte: u8) -> bool
    ensures { result ≡ is_cell byte }
{
    is_zone(byte) || byte == SOLID
}

// The first position of a byte that is neither a zone nor solid.
fn first_wrong(map: &[u8]) -> Option<usize>
    ensures { result ≡ first_wrong map.now }
{
    map.iter().position(|&byte| !is_cell(byte))
}

/// Whether a field can be made of this layout and this map, which has one byte a cell, row by row. It refuses with the first
/// thing that is wrong: the layout, then the length of the map, then its bytes.
pub fn check(layout: Layout, map: &[u8]) -> Result<(), FieldRefusal>
    ensures { result ≡ verdict layout map.now }
{
    if !layout.is_in_range() {
        return Err(FieldRefusal::Size);
    }
    if map.len() != layout.columns as usize * layout.rows as usize {
        return Err(FieldRefusal::Length);
    }
    if let Some(position) = first_wrong(map) {
        return Err(FieldRefusal::Byte { position });
    }
    Ok(())
}
