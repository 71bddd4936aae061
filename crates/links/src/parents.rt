// The parents of rows: one of each row, or all.
ghost use Rattle.std.specs.Prelude.{◌≡◌, ◌<◌, ◌≤◌, [], ◌∷◌, ◌++◌, length, nat_lt, slice_index_or, slice_get};
ghost use Rattle.links.specs.Listings.{at, held, has, added, rewound, passed};
ghost use Rattle.links.specs.Parentages.{unlisted, can_replace, replaced, left_alone, parent_in};
ghost use Rattle.links.specs.declared.parents.Keeps.TheVariants.{One, All};

use crate::lists::{Head, Link, Lists};
use std::marker::Model;

// No parent: rows have lower numbers.
const NO_PARENT: u16 = 65535;

// How many parents of a row are kept: one, which needs no link, or all, in links.
#[derive(Clone, Copy, Debug, PartialEq, Eq)]
pub enum Keeps {
    One,
    All,
}

// The parents of rows over lent memory. One of each row stands in `only`, of which the first `len` are in use; all stand in
// lists.
#[derive(Drop)]
pub struct Parents<'a> {
    keeps: Keeps,
    only: &'a mut [u16],
    len: usize,
    lists: Lists<'a>,
}

impl<'a> Model for Parents<'a> {
    ghost use Rattle.links.specs.Parentages.{Parentage, seen, Sized};

    ghost Value = { Parentage };

    ghost view = { λ p. seen p.keeps p.only.now p.len p.lists };

    ghost invariant = { λ p. Sized p.only.now p.len p.lists };
}

// The one parent of a row, if it has one.
fn parent_at(only: &[u16], row: u16) -> Option<u16>
    requires { row < length only.now }
    ensures { result ≡ parent_in (slice_index_or only.now row 65535) }
{
    let parent = only[row as usize];
    (parent != NO_PARENT).then_some(parent)
}

impl<'a> Parents<'a> {
    // No row has a list, and one parent of each is kept.
    #[tactic(auto, unfolding(crate::specs::Parentages::singles))]
    pub fn new(heads: &'a mut [Head], only: &'a mut [u16], links: &'a mut [Link]) -> Parents<'a>
        requires links { length links.old ≤ 65535 }
        requires rows { length heads.old ≤ 65535 }
        requires as_many { length only.old ≡ length heads.old }
        ensures { result ≡ unlisted One (length links.old) (length heads.old) }
    {
        Parents {
            keeps: Keeps::One,
            only,
            len: 0,
            lists: Lists::new(heads, links),
        }
    }

    // Drops every list, in constant time, and keeps from then on one parent of each row, or all.
    #[tactic(auto, unfolding(crate::specs::Parentages::singles))]
    pub fn begin(&mut self, keeps: Keeps)
        ensures { self.new ≡ unlisted keeps self.old.room self.old.rows }
    {
        self.keeps = keeps;
        self.len = 0;
        self.lists.clear();
    }

    // How many parents of a row are kept.
    pub fn keeps(&self) -> Keeps
        ensures { result ≡ self.now.keeps }
    {
        self.keeps
    }

    // How many rows have a list.
    pub fn len(&self) -> usize
        ensures count { result ≡ length self.now.lists }
        ensures fits { length self.now.lists ≤ self.now.rows }
        ensures as_many { length self.now.left ≡ length self.now.lists }
    {
        match self.keeps {
            Keeps::One => self.len,
            Keeps::All => self.lists.len(),
        }
    }

    // Gives one more row an empty list.
    pub fn start_list(&mut self)
        requires { length self.old.lists < self.old.rows }
        ensures lists { self.new.lists ≡ self.old.lists ++ [] ∷ [] }
        ensures left { self.new.left ≡ self.old.left ++ [] ∷ [] }
        ensures room { self.new.room ≡ self.old.room }
        ensures rows { self.new.rows ≡ self.old.rows }
        ensures keeps { self.new.keeps ≡ self.old.keeps }
    {
        match self.keeps {
            Keeps::One => {
                let only = &mut *self.only;
                only[self.len] = NO_PARENT;
                self.len += 1;
            }
            Keeps::All => self.lists.start_list(),
        }
    }

    // A parent takes the place of the list of a row; whether a link was free for it, once the list is empty. It stays so where
    // none was.
    pub fn replace(&mut self, row: u16, parent: u16) -> bool
        requires row { row < length self.old.lists }
        requires parent { parent < length self.old.lists }
        ensures answer { result ≡ can_replace self.old.keeps self.old.room row self.old.lists }
        ensures lists { self.new.lists ≡ replaced result row parent self.old.lists }
        ensures left { self.new.left ≡ left_alone self.old.keeps row parent self.old.left }
        ensures room { self.new.room ≡ self.old.room }
        ensures rows { self.new.rows ≡ self.old.rows }
        ensures keeps { self.new.keeps ≡ self.old.keeps }
    {
        match self.keeps {
            Keeps::One => {
                let only = &mut *self.only;
                only[row as usize] = parent;
                true
            }
            Keeps::All => {
                self.lists.empty(row);
                self.lists.add(row, parent)
            }
        }
    }

    // Adds a parent to the list of a row, where all are kept; whether a link was free for it.
    pub fn add(&mut self, row: u16, parent: u16) -> bool
        requires keeps { self.old.keeps ≡ All }
        requires row { row < length self.old.lists }
        ensures answer { result ≡ nat_lt (held self.old.lists) self.old.room }
        ensures lists { self.new.lists ≡ added result row parent self.old.lists }
        ensures left { self.new.left ≡ self.old.left }
        ensures room { self.new.room ≡ self.old.room }
        ensures rows { self.new.rows ≡ self.old.rows }
        ensures keeps { self.new.keeps ≡ self.old.keeps }
    {
        self.lists.add(row, parent)
    }

    // Whether a row has the parent.
    pub fn contains(&self, row: u16, parent: u16) -> bool
        requires { row < length self.now.lists }
        ensures { result ≡ has parent (at self.now.lists row) }
    {
        match self.keeps {
            Keeps::One => parent_at(self.only, row) == Some(parent),
            Keeps::All => self.lists.contains(row, parent),
        }
    }

    // Chooses the parent of a row that was added last: all are left.
    pub fn rewind(&mut self, row: u16)
        requires { row < length self.old.lists }
        ensures lists { self.new.lists ≡ self.old.lists }
        ensures left { self.new.left ≡ rewound row (at self.old.lists row) self.old.left }
        ensures room { self.new.room ≡ self.old.room }
        ensures rows { self.new.rows ≡ self.old.rows }
        ensures keeps { self.new.keeps ≡ self.old.keeps }
    {
        match self.keeps {
            Keeps::One => {}
            Keeps::All => self.lists.rewind(row),
        }
    }

    // The chosen parent of a row.
    pub fn chosen(&self, row: u16) -> Option<u16>
        requires { row < length self.now.lists }
        ensures { result ≡ slice_get (at self.now.left row) 0 }
    {
        match self.keeps {
            Keeps::One => parent_at(self.only, row),
            Keeps::All => self.lists.chosen(row),
        }
    }

    // Whether a row has a parent that was added before the chosen one.
    pub fn has_older(&self, row: u16) -> bool
        requires { row < length self.now.lists }
        ensures { result ≡ nat_lt 1 (length (at self.now.left row)) }
    {
        match self.keeps {
            Keeps::One => false,
            Keeps::All => self.lists.has_older(row),
        }
    }

    // Chooses the parent that was added before the chosen one.
    pub fn pass(&mut self, row: u16)
        requires row { row < length self.old.lists }
        requires older { 1 < length (at self.old.left row) }
        ensures lists { self.new.lists ≡ self.old.lists }
        ensures left { self.new.left ≡ passed row self.old.left }
        ensures room { self.new.room ≡ self.old.room }
        ensures rows { self.new.rows ≡ self.old.rows }
        ensures keeps { self.new.keeps ≡ self.old.keeps }
    {
        self.lists.pass(row);
    }
}
