// A field as it was drawn.
use field::Layout;
use graph::{Layer, Zones};
use kinds::{Cell, Millis};
use std::marker::Model;

// A cost, and the zones that it is asked for.
#[derive(Clone, Copy)]
pub struct Charge {
    pub cost: Millis,
    pub zones: Zones,
}

// What the lines before the map say: a field, where routes over it begin, and the fences and tolls that lie over it, the lowest first.
#[derive(Drop)]
pub struct Plan {
    pub layout: Layout,
    pub start: Cell,
    pub layers: Vec<Layer<Millis>>,
}

impl Model for Plan {
    ghost use Rattle.map.specs.Plans.{Planned};

    ghost Value = { Planned };

    ghost view = { λ p. record { layout = p.layout; start = p.start; layers = p.layers.items } };
}

// A plan and the map's bytes, one a cell, row by row.
#[derive(Drop)]
pub struct Drawing {
    pub plan: Plan,
    pub map: Vec<u8>,
}
