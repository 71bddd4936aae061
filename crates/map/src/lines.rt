// The lines of a text with their numbers.
ghost use Rattle.std.specs.Prelude.{◌≡◌, ◌+◌, ◌<◌, ◌^◌, length};
ghost use Rattle.std.specs.Str.Iter.{lines_rest};
ghost use Rattle.std.specs.Str.Lines.{lines};
ghost use Rattle.map.specs.Lines.{LinesLeft, TakesLine, number_after, lines_count};

use std::marker::Model;
use std::str::Lines;

// The lines that are left of a text. Contracts see them as a list, with the number of those that were taken.
#[derive(Drop)]
pub struct NumberedLines<'a> {
    rest: Lines<'a>,
    taken: usize,
}

impl<'a> Model for NumberedLines<'a> {
    ghost Value = { LinesLeft };

    ghost view = { λ l. record { taken = l.taken; lines = lines (lines_rest l.rest) } };

    ghost invariant = { λ l. l.taken + length (lines_rest l.rest) < 2 ^ 64 };
}

// Each line comes with its number, from 1.
impl<'a> Iterator for NumberedLines<'a> {
    type Item = (usize, &'a str);

    ghost next_gives = { TakesLine };

    ghost remaining = { lines_count };

    #[tactic(auto, using(crate::proofs::Lining::next_line, crate::proofs::Lining::no_line, crate::proofs::Lining::fewer_lines))]
    fn next(&mut self) -> Option<(usize, &'a str)> {
        let line = self.rest.next()?;
        self.taken += 1;
        Some((self.taken, line))
    }
}

impl<'a> NumberedLines<'a> {
    // All lines of a text.
    pub fn of(text: &'a str) -> NumberedLines<'a>
        ensures { result ≡ record { taken = 0; lines = lines text.now } }
    {
        NumberedLines {
            rest: text.lines(),
            taken: 0,
        }
    }

    // The number of the line after those that were taken.
    pub fn next_number(&self) -> usize
        ensures { result ≡ number_after self.now.taken }
    {
        self.taken.saturating_add(1)
    }
}
