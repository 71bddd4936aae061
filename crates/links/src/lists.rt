// Lists of parents, one for each row, in links that are lent.
ghost use Rattle.std.specs.Prelude.{◌≡◌, ◌<◌, ◌≤◌, [], ◌∷◌, ◌++◌, length, nat_lt, slice_get};
ghost use Rattle.links.specs.Listings.{at, held, has, emptied, added, rewound, passed};

use crate::edits::{find_from, place, splice};
use std::marker::Model;

// No link: of at most 65,535 links the numbers are below.
pub(crate) const NONE: u16 = 65535;

// A parent, and the link of the parent that was added before.
#[derive(Clone, Copy, Debug)]
pub struct Link {
    pub(crate) parent: u16,
    pub(crate) next: u16,
}

impl Link {
    // A link in no list.
    pub fn new() -> Link
        ensures { result ≡ record { parent = 0; next = 65535 } }
    {
        Link {
            parent: 0,
            next: NONE,
        }
    }
}

// What a row has: the link of the parent that was added last, that of the one added first, and that of the chosen one.
#[derive(Clone, Copy, Debug)]
pub struct Head {
    pub(crate) first: u16,
    pub(crate) last: u16,
    pub(crate) chosen: u16,
}

impl Head {
    // A row with no parents.
    pub fn new() -> Head
        ensures { result ≡ record { first = 65535; last = 65535; chosen = 65535 } }
    {
        Head {
            first: NONE,
            last: NONE,
            chosen: NONE,
        }
    }
}

// The first `len` heads are in use. Free are the links in the chain from `free` on, and those from number `used` on, which no
// list has had yet.
#[derive(Drop)]
pub struct Lists<'a> {
    heads: &'a mut [Head],
    links: &'a mut [Link],
    len: usize,
    free: u16,
    used: usize,
}

impl<'a> Model for Lists<'a> {
    ghost use Rattle.links.specs.Listings.{Listing};
    ghost use Rattle.links.specs.Chains.{listing, Kept};

    ghost Value = { Listing };

    ghost view = { λ l. listing l.links.now l.heads.now l.len };

    ghost invariant = { λ l. Kept l.heads.now l.links.now l.len l.free l.used };
}

impl<'a> Lists<'a> {
    // No row has a list.
    #[tactic(auto, unfolding(crate::specs::Chains::lists, crate::specs::Chains::left))]
    pub fn new(heads: &'a mut [Head], links: &'a mut [Link]) -> Lists<'a>
        requires few { length links.old ≤ 65535 }
        ensures lists { result.lists ≡ [] }
        ensures left { result.left ≡ [] }
        ensures room { result.room ≡ length links.old }
        ensures rows { result.rows ≡ length heads.old }
    {
        Lists {
            heads,
            links,
            len: 0,
            free: NONE,
            used: 0,
        }
    }

    // Drops every list, in constant time.
    #[tactic(auto, unfolding(crate::specs::Chains::lists, crate::specs::Chains::left))]
    pub fn clear(&mut self)
        ensures lists { self.new.lists ≡ [] }
        ensures left { self.new.left ≡ [] }
        ensures room { self.new.room ≡ self.old.room }
        ensures rows { self.new.rows ≡ self.old.rows }
    {
        self.len = 0;
        self.free = NONE;
        self.used = 0;
    }

    // How many rows have a list.
    pub fn len(&self) -> usize
        ensures count { result ≡ length self.now.lists }
        ensures fits { length self.now.lists ≤ self.now.rows }
        ensures as_many { length self.now.left ≡ length self.now.lists }
    {
        self.len
    }

    // Gives one more row an empty list.
    pub fn start_list(&mut self)
        requires { length self.old.lists < self.old.rows }
        ensures lists { self.new.lists ≡ self.old.lists ++ [] ∷ [] }
        ensures left { self.new.left ≡ self.old.left ++ [] ∷ [] }
        ensures room { self.new.room ≡ self.old.room }
        ensures rows { self.new.rows ≡ self.old.rows }
    {
        let heads = &mut *self.heads;
        heads[self.len] = Head::new();
        self.len += 1;
    }

    // Empties the list of a row, in constant time: its links are free.
    pub fn empty(&mut self, row: u16)
        requires { row < length self.old.lists }
        ensures lists { self.new.lists ≡ emptied row self.old.lists }
        ensures left { self.new.left ≡ emptied row self.old.left }
        ensures room { self.new.room ≡ self.old.room }
        ensures rows { self.new.rows ≡ self.old.rows }
    {
        let heads = &mut *self.heads;
        let links = &mut *self.links;
        self.free = splice(heads, links, row as usize, self.free);
    }

    // Adds a parent to the list of a row, and answers whether a link was free for it.
    pub fn add(&mut self, row: u16, parent: u16) -> bool
        requires { row < length self.old.lists }
        ensures answer { result ≡ nat_lt (held self.old.lists) self.old.room }
        ensures lists { self.new.lists ≡ added result row parent self.old.lists }
        ensures left { self.new.left ≡ self.old.left }
        ensures room { self.new.room ≡ self.old.room }
        ensures rows { self.new.rows ≡ self.old.rows }
    {
        let heads = &mut *self.heads;
        let links = &mut *self.links;
        let free = self.free;
        if (free as usize) < links.len() {
            self.free = place(heads, links, row as usize, free, parent);
            return true;
        }
        if self.used < links.len() {
            let _ = place(heads, links, row as usize, self.used as u16, parent);
            self.used += 1;
            return true;
        }
        false
    }

    // Whether the list of a row has the parent.
    pub fn contains(&self, row: u16, parent: u16) -> bool
        requires { row < length self.now.lists }
        ensures { result ≡ has parent (at self.now.lists row) }
    {
        let heads = &*self.heads;
        find_from(self.links, heads[row as usize].first, parent)
    }

    // Chooses the parent of a row that was added last: all are left.
    pub fn rewind(&mut self, row: u16)
        requires { row < length self.old.lists }
        ensures lists { self.new.lists ≡ self.old.lists }
        ensures left { self.new.left ≡ rewound row (at self.old.lists row) self.old.left }
        ensures room { self.new.room ≡ self.old.room }
        ensures rows { self.new.rows ≡ self.old.rows }
    {
        let heads = &mut *self.heads;
        let head = &mut heads[row as usize];
        head.chosen = head.first;
    }

    // The chosen parent of a row.
    pub fn chosen(&self, row: u16) -> Option<u16>
        requires { row < length self.now.lists }
        ensures { result ≡ slice_get (at self.now.left row) 0 }
    {
        let heads = &*self.heads;
        let links = &*self.links;
        let link = heads[row as usize].chosen as usize;
        if link < links.len() {
            Some(links[link].parent)
        } else {
            None
        }
    }

    // Whether a row has a parent that was added before the chosen one.
    pub fn has_older(&self, row: u16) -> bool
        requires { row < length self.now.lists }
        ensures { result ≡ nat_lt 1 (length (at self.now.left row)) }
    {
        let heads = &*self.heads;
        let links = &*self.links;
        let link = heads[row as usize].chosen as usize;
        link < links.len() && (links[link].next as usize) < links.len()
    }

    // Chooses the parent that was added before the chosen one.
    pub fn pass(&mut self, row: u16)
        requires inside { row < length self.old.lists }
        requires chosen { 0 < length (at self.old.left row) }
        ensures lists { self.new.lists ≡ self.old.lists }
        ensures left { self.new.left ≡ passed row self.old.left }
        ensures room { self.new.room ≡ self.old.room }
        ensures rows { self.new.rows ≡ self.old.rows }
    {
        let heads = &mut *self.heads;
        let links = &mut *self.links;
        let next = links[heads[row as usize].chosen as usize].next;
        heads[row as usize].chosen = next;
    }
}
