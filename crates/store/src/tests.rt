// Heaps of few entries, push numbers dealt anew, and a register whose last row is taken back.
ghost use Rattle.std.specs.Prelude.{◌≡◌};

use crate::heap::Heap;
use crate::register::Register;
use crate::rows::Row;
use crate::slots::Slot;
use kinds::{CostKind, Millis, NodeKind, Station};

fn millis(millis: u32) -> Millis {
    Millis { millis }
}

// The row that comes out next.
fn next_out<C: CostKind>(heap: &mut Heap<C>) -> Option<u16>
    ensures { heap.new.rows ≡ heap.old.rows }
{
    heap.pop().map(|waiting| waiting.row)
}

#[test]
fn none_and_one(rt: HostRuntime) {
    let mut slots = [Slot::new(); 1];
    let mut heap = Heap::new(&mut slots);
    assert_eq!(rt; next_out(&mut heap), None);
    heap.push(0, millis(2), millis(0));
    heap.push(0, millis(1), millis(0));
    assert_eq!(rt; next_out(&mut heap), Some(0));
    assert_eq!(rt; next_out(&mut heap), None);
}

#[test]
fn two_and_three(rt: HostRuntime) {
    let mut slots = [Slot::new(); 3];
    let mut heap = Heap::new(&mut slots);
    heap.push(2, millis(5), millis(1));
    heap.push(0, millis(4), millis(1));
    assert_eq!(rt; next_out(&mut heap), Some(0));
    heap.push(1, millis(5), millis(2));
    heap.push(0, millis(5), millis(1));
    assert_eq!(rt; next_out(&mut heap), Some(1));
    assert_eq!(rt; next_out(&mut heap), Some(2));
    assert_eq!(rt; next_out(&mut heap), Some(0));
    assert_eq!(rt; next_out(&mut heap), None);
}

// A row that waits is pushed again: it goes up, and then down.
#[test]
fn pushed_again(rt: HostRuntime) {
    let mut slots = [Slot::new(); 4];
    let mut heap = Heap::new(&mut slots);
    heap.push(0, millis(1), millis(0));
    heap.push(1, millis(2), millis(0));
    heap.push(2, millis(3), millis(0));
    heap.push(3, millis(4), millis(0));
    heap.push(3, millis(0), millis(0));
    heap.push(0, millis(9), millis(0));
    assert_eq!(rt; next_out(&mut heap), Some(3));
    assert_eq!(rt; next_out(&mut heap), Some(1));
    assert_eq!(rt; next_out(&mut heap), Some(2));
    assert_eq!(rt; next_out(&mut heap), Some(0));
    assert_eq!(rt; next_out(&mut heap), None);
}

// Entries that differ in their push alone come out in the order of the pushes, whose numbers are dealt anew on the way.
#[test]
fn dealt_anew(rt: HostRuntime) {
    let mut slots = [Slot::new(); 5];
    let mut heap = Heap::counting_from(&mut slots, u64::MAX - 2);
    heap.push(3, millis(7), millis(1));
    heap.push(1, millis(7), millis(1));
    heap.push(4, millis(7), millis(1));
    heap.push(0, millis(7), millis(1));
    heap.push(3, millis(7), millis(1));
    assert_eq!(rt; next_out(&mut heap), Some(1));
    assert_eq!(rt; next_out(&mut heap), Some(4));
    assert_eq!(rt; next_out(&mut heap), Some(0));
    assert_eq!(rt; next_out(&mut heap), Some(3));
    assert_eq!(rt; next_out(&mut heap), None);
}

// Gives a node a row where it has none.
fn found_or_added<N: NodeKind>(register: &mut Register<N, u8>, node: N) -> Option<u16> {
    match register.find(&node) {
        Some(row) => Some(row),
        None => register.add(node, 0),
    }
}

// Three nodes of one bucket; the last is taken back, and another gets its row.
#[test]
fn taken_back(rt: HostRuntime) {
    let mut rows = [Row::new(Station { id: 0 }, 0u8); 3];
    let mut register = Register::new(&mut rows);
    assert_eq!(rt; found_or_added(&mut register, Station { id: 1 }), Some(0));
    assert_eq!(rt; found_or_added(&mut register, Station { id: 4 }), Some(1));
    assert_eq!(rt; found_or_added(&mut register, Station { id: 7 }), Some(2));
    assert_eq!(rt; register.is_full(), true);
    assert_eq!(rt; found_or_added(&mut register, Station { id: 10 }), None);
    if register.len() > 0 {
        register.take_back();
    }
    assert_eq!(rt; register.find(&Station { id: 7 }), None);
    assert_eq!(rt; register.find(&Station { id: 4 }), Some(1));
    assert_eq!(rt; found_or_added(&mut register, Station { id: 10 }), Some(2));
    assert_eq!(rt; register.find(&Station { id: 1 }), Some(0));
}
