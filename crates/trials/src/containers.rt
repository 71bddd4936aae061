// The register and the heap, over both node kinds and both cost kinds.
use kinds::{Cell, CostKind, Millis, Station, Trims};
use std::io;
use store::heap::Heap;
use store::register::Register;
use store::rows::Row;
use store::slots::Slot;

// Short for what stands often below.
fn millis(millis: u32) -> Millis {
    Millis { millis }
}

fn cost(trims: u32, millis: u32) -> Trims {
    Trims { trims, millis }
}

// Takes out so many times, and prints each row that comes, or a dash where there is none.
fn print_out<C: CostKind>(rt: &impl Print, heap: &mut Heap<C>, times: usize) -> io::Result<()> {
    print!(rt; "out of the heap:")?;
    for _ in 0..times {
        match heap.pop() {
            None => print!(rt; " -")?,
            Some(waiting) => print!(rt; " {}", waiting.row)?,
        }
    }
    println!(rt; "")
}

// Pushes of one estimate and cost come out in their order, though their numbers are dealt anew on the way. They stand one by
// one, since a loop over them would have to say that each row is one of the heap's.
fn dealt_anew(rt: &impl Print) -> io::Result<()> {
    let mut slots = [Slot::new(); 6];
    let mut heap = Heap::counting_from(&mut slots, u64::MAX - 2);
    heap.push(3, millis(7), millis(1));
    heap.push(1, millis(7), millis(1));
    heap.push(4, millis(7), millis(1));
    heap.push(0, millis(7), millis(1));
    heap.push(3, millis(7), millis(1));
    heap.push(2, millis(7), millis(2));
    print_out(rt, &mut heap, 6)
}

// Least estimate, then greatest cost; a row that is pushed again has one entry.
fn two_parts(rt: &impl Print) -> io::Result<()> {
    let mut slots = [Slot::new(); 4];
    let mut heap = Heap::new(&mut slots);
    heap.push(0, cost(1, 0), cost(0, 0));
    heap.push(1, cost(0, u32::MAX), cost(0, 0));
    heap.push(2, cost(0, u32::MAX), cost(0, 1));
    heap.push(0, cost(0, 5), cost(0, 0));
    print_out(rt, &mut heap, 4)
}

fn cells(rt: &impl Print) -> io::Result<()> {
    let a = Cell { column: 1, row: 2 };
    let b = Cell { column: 2, row: 1 };
    let mut rows = [Row::new(Cell { column: 0, row: 0 }, 0u8); 2];
    let mut register = Register::new(&mut rows);
    let first = register.add(a, 5);
    let again = register.find(&a);
    let other = register.find(&b);
    println!(rt; "cells: {first:?} {again:?} {other:?}")
}

fn stations(rt: &impl Print) -> io::Result<()> {
    let mut rows = [Row::new(Station { id: 0 }, 0u8)];
    let mut register = Register::new(&mut rows);
    let first = register.add(Station { id: 9 }, 1);
    let other = register.find(&Station { id: 10 });
    let full = other.or_else(|| register.add(Station { id: 10 }, 2));
    println!(rt; "stations: {first:?} {other:?} {full:?}")
}

pub fn containers(rt: &impl Print) -> io::Result<()> {
    dealt_anew(rt)?;
    two_parts(rt)?;
    cells(rt)?;
    stations(rt)
}
