// The rows that routes end at.
ghost use Rattle.std.specs.Prelude.{◌≡◌, ◌-◌, ◌<◌, ◌≤◌, [], length, reverse, take, slice_get};
ghost use Rattle.search.specs.Bag.{joined};

use std::marker::Model;

// Sinks over lent memory, in the order of joining, and none twice. The first `count` are in use.
#[derive(Drop)]
pub struct Sinks<'a> {
    rows: &'a mut [u16],
    count: usize,
}

impl<'a> Model for Sinks<'a> {
    ghost use Rattle.std.specs.Prelude.{length, take};
    ghost use Rattle.listing.specs.Sinks.{Joined, Kept};

    ghost Value = { Joined };

    ghost view = { λ s. record { sinks = take s.count s.rows.now; places = length s.rows.now } };

    ghost invariant = { λ s. Kept s.rows.now s.count };
}

impl<'a> Sinks<'a> {
    // No sink.
    pub fn new(rows: &'a mut [u16]) -> Sinks<'a>
        ensures sinks { result.sinks ≡ [] }
        ensures places { result.places ≡ length rows.old }
    {
        Sinks { rows, count: 0 }
    }

    // Drops every sink, in constant time.
    pub fn clear(&mut self)
        ensures sinks { self.new.sinks ≡ [] }
        ensures places { self.new.places ≡ self.old.places }
    {
        self.count = 0;
    }

    // A row is a sink, the latest if it was none. There is a place for each row.
    pub fn join(&mut self, row: u16)
        requires { row < self.old.places }
        ensures sinks { self.new.sinks ≡ joined row self.old.sinks }
        ensures places { self.new.places ≡ self.old.places }
    {
        let rows = &mut *self.rows;
        if rows[..self.count].contains(&row) {
            return;
        }
        rows[self.count] = row;
        self.count += 1;
    }

    // The latest sink.
    pub fn latest(&self) -> Option<u16>
        ensures { result ≡ slice_get (reverse self.now.sinks) 0 }
    {
        let rows = &*self.rows;
        if self.count == 0 {
            return None;
        }
        Some(rows[self.count - 1])
    }

    // The latest sink is one no more.
    pub fn drop_latest(&mut self)
        requires { 0 < length self.old.sinks }
        ensures sinks { self.new.sinks ≡ take (length self.old.sinks - 1) self.old.sinks }
        ensures places { self.new.places ≡ self.old.places }
    {
        self.count -= 1;
    }
}
