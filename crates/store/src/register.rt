// A register numbers nodes from 0 as they are found: a list of nodes and their values in the order of finding.
ghost use Rattle.std.specs.Prelude.{◌≡◌, ◌+◌, ◌-◌, ◌<◌, ◌≤◌, [], length, take, None};
ghost use Rattle.store.specs.Rows.{number_of, At, Valued};
ghost use Rattle.store.specs.Registers.{is_full, next_row, listed_with};

use crate::chains::{insert, remove, seek};
use crate::rows::Row;
use kinds::NodeKind;
use std::marker::Model;

// A register over lent rows: the first `len` have the nodes as they were found. The length stands beside the rows, since they
// are lent and nothing is allocated; that rows are few is asked of the slice, and that they stay as many each change says.
#[derive(Drop)]
pub struct Register<'a, N: NodeKind, V: Copy> {
    rows: &'a mut [Row<N, V>],
    len: usize,
}

impl<'a, N: NodeKind, V: Copy> Model for Register<'a, N, V> {
    ghost use Rattle.std.specs.Prelude.{length};
    ghost use Rattle.store.specs.Rows.{found};
    ghost use Rattle.store.specs.Registers.{Listing, IsRegister};

    ghost Value = { Listing N V };

    ghost view = { λ r. record { rows = r.rows.now; listed = found r.rows.now r.len; room = length r.rows.now } };

    ghost invariant = { λ r. IsRegister N.key N.marks r.rows.now r.len };
}

impl<'a, N: NodeKind, V: Copy> Register<'a, N, V> {
    // A register with no row; the rows that are lent are not written to.
    #[tactic(auto, unfolding(crate::specs::Rows::found))]
    pub fn new(rows: &'a mut [Row<N, V>]) -> Register<'a, N, V>
        requires { length rows.old ≤ 65536 }
        ensures rows { result.rows ≡ rows.old }
        ensures empty { result.listed ≡ [] }
        ensures room { result.room ≡ length rows.old }
    {
        Register { rows, len: 0 }
    }

    // Drops every row, in constant time.
    #[tactic(auto, unfolding(crate::specs::Rows::found))]
    pub fn clear(&mut self)
        ensures rows { self.new.rows ≡ self.old.rows }
        ensures empty { self.new.listed ≡ [] }
        ensures room { self.new.room ≡ self.old.room }
    {
        self.len = 0;
    }

    // How many rows are in use.
    #[tactic(auto, unfolding(crate::specs::Rows::found))]
    pub fn len(&self) -> usize
        ensures count { result ≡ length self.now.listed }
        ensures fits { length self.now.listed ≤ self.now.room }
        ensures few { self.now.room ≤ 65536 }
    {
        self.len
    }

    // Whether all rows are in use.
    #[tactic(auto, unfolding(crate::specs::Rows::found))]
    pub fn is_full(&self) -> bool
        ensures { result ≡ is_full self.now }
    {
        self.len == self.rows.len()
    }

    // The row of the node's key.
    pub fn find(&self, node: &N) -> Option<u16>
        ensures { result ≡ number_of N.key (N.key node.now) self.now.listed }
    {
        let row = seek(self.rows, self.len, *node)?;
        Some(row as u16)
    }

    // Gives a node whose key is new the next row; nothing where all rows are in use.
    #[tactic(auto, unfolding(crate::specs::Rows::found))]
    pub fn add(&mut self, node: N, value: V) -> Option<u16>
        requires fresh { number_of N.key (N.key node) self.old.listed ≡ None }
        ensures number { result ≡ next_row self.old }
        ensures listed { self.new.listed ≡ listed_with self.old node value }
        ensures room { self.new.room ≡ self.old.room }
    {
        let row = self.len;
        if row == self.rows.len() {
            return None;
        }
        insert(self.rows, row, node, value);
        self.len += 1;
        Some(row as u16)
    }

    // The next three open the rows first: the check asks for an index before it opens a value.

    // The node of a row, as it was first found.
    #[tactic(auto, unfolding(crate::specs::Rows::found))]
    pub fn node(&self, row: u16) -> N
        requires { row < length self.now.listed }
        ensures { At self.now.listed row (λ x. result ≡ x.0) }
    {
        let rows = &*self.rows;
        rows[row as usize].node
    }

    // The value of a row.
    #[tactic(auto, unfolding(crate::specs::Rows::found))]
    pub fn value(&self, row: u16) -> V
        requires { row < length self.now.listed }
        ensures { At self.now.listed row (λ x. result ≡ x.1) }
    {
        let rows = &*self.rows;
        rows[row as usize].value
    }

    // Gives a row another value, and changes nothing else.
    #[tactic(auto, unfolding(crate::specs::Rows::found))]
    pub fn set_value(&mut self, row: u16, value: V)
        requires { row < length self.old.listed }
        ensures listed { Valued self.old.listed self.new.listed row value }
        ensures room { self.new.room ≡ self.old.room }
    {
        let rows = &mut *self.rows;
        let row = &mut rows[row as usize];
        row.value = value;
    }

    // Takes the last row back.
    #[tactic(auto, unfolding(crate::specs::Rows::found))]
    pub fn take_back(&mut self)
        requires { 0 < length self.old.listed }
        ensures listed { self.new.listed ≡ take (length self.old.listed - 1) self.old.listed }
        ensures room { self.new.room ≡ self.old.room }
    {
        self.len -= 1;
        remove(self.rows, self.len);
    }
}
