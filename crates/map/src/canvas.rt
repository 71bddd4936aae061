// A map with a route drawn on it.
ghost use Rattle.std.specs.Prelude.{◌≡◌, map, IfOk, string_bytes, encode_utf8_all};
ghost use Rattle.map.specs.Signs.{sign_of};
ghost use Rattle.map.specs.Picture.{marked, marked_all, picture_of};

use crate::drawing::Drawing;
use crate::signs::sign_of;
use kinds::Cell;
use std::alloc::{AllocError, Global};

// The signs of cells, row by row, in rows of so many columns, which stay as the signs are drawn over.
#[derive(Drop)]
pub struct Canvas {
    pub columns: u16,
    pub signs: Vec<char>,
}

impl Canvas {
    // Draws a sign at a cell. A field finds the place of a cell in the same way, but a canvas
    // has no field.
    fn mark(&mut self, cell: Cell, sign: char)
        ensures signs { self.new.signs.items ≡ marked sign self.old.columns cell self.old.signs.items }
        ensures columns { self.new.columns ≡ self.old.columns }
    {
        let place = cell.row as usize * self.columns as usize + cell.column as usize;
        if let Some(there) = self.signs.get_mut(place) {
            *there = sign;
        }
    }

    // Draws a sign at each cell of a route.
    fn mark_all(&mut self, route: &[Cell], sign: char)
        ensures signs { self.new.signs.items ≡ marked_all sign self.old.columns route.now self.old.signs.items }
        ensures columns { self.new.columns ≡ self.old.columns }
    {
        for cell in route {
            self.mark(*cell, sign);
        }
    }

    // The signs of a map's bytes.
    fn plain(heap: Global, columns: u16, bytes: &[u8]) -> Result<Canvas, AllocError>
        ensures signs { IfOk result (λ c. c.signs.items ≡ map sign_of bytes.now) }
        ensures columns { IfOk result (λ c. c.columns ≡ columns) }
    {
        let signs = bytes.iter().map(|byte| sign_of(*byte)).collect(heap)?;
        Ok(Canvas { columns, signs })
    }

    // A drawing with * for the cells of the route, ! for the target and @ for the start.
    pub fn draw(heap: Global, drawing: &Drawing, route: &[Cell]) -> Result<Canvas, AllocError>
        ensures signs { IfOk result (λ c. c.signs.items ≡ picture_of drawing.now route.now) }
        ensures columns { IfOk result (λ c. c.columns ≡ drawing.now.plan.layout.columns) }
    {
        let plan = &drawing.plan;
        let mut canvas = Canvas::plain(heap, plan.layout.columns, drawing.map.as_slice())?;
        canvas.mark_all(route, '*');
        canvas.mark(plan.layout.target, '!');
        canvas.mark(plan.start, '@');
        Ok(canvas)
    }
}

// A line of text of one row of signs.
pub fn text_of(heap: Global, row: &[char]) -> Result<String, AllocError>
    ensures { IfOk result (λ text. string_bytes text ≡ encode_utf8_all row.now) }
{
    row.iter().copied().collect(heap)
}
