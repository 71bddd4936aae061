// The words of a line.
ghost use Rattle.std.specs.Prelude.{◌≡◌, ℕ, List, [], ◌∷◌, IsSome, ◌↔◌};
ghost use Rattle.std.specs.Iterator.{YieldsFirstBy, item_count};
ghost use Rattle.std.specs.Str.{IsUtf8};
ghost use Rattle.std.specs.Str.Iter.{split_whitespace_rest};
ghost use Rattle.map.specs.Words.{words, IsParsed, TakesWord};

use std::marker::Model;
use std::str::{FromStr, SplitWhitespace};

// The words that are left of a line. Contracts see them as a list.
#[derive(Drop)]
pub struct Words<'a> {
    rest: SplitWhitespace<'a>,
}

impl<'a> Model for Words<'a> {
    ghost Value = { List (List ℕ) };

    ghost view = { λ w. words (split_whitespace_rest w.rest) };

    ghost invariant = { λ w. IsUtf8 (split_whitespace_rest w.rest) };
}

impl<'a> Iterator for Words<'a> {
    type Item = &'a str;

    ghost next_gives = { YieldsFirstBy (λ word. word.now) (λ words. words) };

    ghost remaining = { item_count (λ words. words) };

    #[tactic(auto, using(crate::proofs::Wording::gives_word, crate::proofs::Wording::keeps_text, crate::proofs::Wording::fewer_left))]
    fn next(&mut self) -> Option<&'a str> {
        self.rest.next()
    }
}

// What a word is parsed to, if it can be.
fn parsed<F: FromStr>(word: &str) -> Option<F>
where
    F::Err: Drop,
    ensures { IsParsed F.from_str_gives word.now result }
{
    word.parse().ok()
}

impl<'a> Words<'a> {
    pub fn of(line: &'a str) -> Words<'a>
        ensures { result ≡ words line.now }
    {
        Words {
            rest: line.split_whitespace(),
        }
    }

    // The number that the next word is.
    pub fn number<F: FromStr>(&mut self) -> Option<F>
    where
        F::Err: Drop,
        ensures { TakesWord (IsParsed F.from_str_gives) self.old result self.new }
    {
        parsed(self.next()?)
    }

    // Nothing, where no word is left.
    pub fn end(mut self) -> Option<()>
        ensures { IsSome result ↔ (self.entry ≡ []) }
    {
        self.next().is_none().then_some(())
    }
}
