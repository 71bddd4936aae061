// The hash chains of a register: rows of one bucket are linked from the latest to the earliest.
ghost use Rattle.std.specs.Prelude.{◌≡◌, ℕ, ◌+◌, ◌%◌, ◌<◌, ◌≤◌, [], ◌∷◌, ◌++◌, length, ◌==◌};
ghost use Rattle.store.specs.declared.rows.Row.{Row};
ghost use Rattle.store.specs.Rows.{IsLinked, IsOnward, IsSingle, IsFresh, IsRowOf, found, key_at};

use crate::rows::Row;
use kinds::NodeKind;

// Whether the node of row i has the node's key: a function, so that a clause pins the test.
fn same_at<N: NodeKind, V: Copy>(rows: &[Row<N, V>], i: usize, node: &N) -> bool
    requires { i < length rows.now }
    ensures { (d : Row N V) → result ≡ (key_at N.key rows.now d i == N.key node.now) }
{
    rows[i].node == *node
}

// A mark as a bucket, where it is none as it stands.
#[cold]
#[inline(never)]
fn folded(mark: usize, buckets: usize) -> usize
    requires { 0 < buckets }
    ensures { result ≡ mark % buckets }
{
    mark % buckets
}

// The bucket of a node: a division only where its mark is not one.
#[tactic(auto, using(crate::proofs::Buckets::small_rem))]
fn bucket_of<N: NodeKind, V: Copy>(rows: &[Row<N, V>], node: &N) -> usize
    requires { 0 < length rows.now }
    ensures { result ≡ N.marks node.now % length rows.now }
{
    let mark = node.mark() as usize;
    if mark < rows.len() {
        mark
    } else {
        folded(mark, rows.len())
    }
}

// `seek` and `insert` take the rows and how many are in use. As methods of the register they would say the same of its fields, and
// be no plainer.

// The row of the node's key among the first n: mostly the latest of its bucket, or none.
pub(crate) fn seek<N: NodeKind, V: Copy>(rows: &[Row<N, V>], n: usize, node: N) -> Option<usize>
    requires fits { n ≤ length rows.now }
    requires linked { IsLinked N.marks rows.now n }
    ensures { IsRowOf N.key rows.now n (N.key node) result }
{
    if n == 0 {
        return None;
    }
    let row = rows[bucket_of(rows, &node)].head as usize;
    if row >= n {
        return None;
    }
    if same_at(rows, row, &node) {
        return Some(row);
    }
    walk(rows, n, row, node)
}

// The same along the chain of the node's bucket, from a row on. A walk, which no range has; the key has no row from `end` on, and
// it is compared first, since a row of another bucket ends the walk but once.
#[cold]
#[inline(never)]
fn walk<N: NodeKind, V: Copy>(rows: &[Row<N, V>], n: usize, from: usize, node: N) -> Option<usize>
    requires fits { n ≤ length rows.now }
    requires some { from < n }
    requires linked { IsLinked N.marks rows.now n }
    requires onward { IsOnward N.key N.marks rows.now n node from n }
    ensures { IsRowOf N.key rows.now n (N.key node) result }
{
    let bucket = bucket_of(rows, &node);
    let mut end = n;
    let mut row = from;
    while row < end {
        if same_at(rows, row, &node) {
            return Some(row);
        }
        if bucket_of(rows, &rows[row].node) != bucket {
            return None;
        }
        end = row;
        row = rows[row].next as usize;
    }
    None
}

// Writes row n, the first that is free.
pub(crate) fn insert<N: NodeKind, V: Copy>(rows: &mut [Row<N, V>], n: usize, node: N, value: V)
    requires fits { n < length rows.old }
    requires few { length rows.old ≤ 65536 }
    requires linked { IsLinked N.marks rows.old n }
    requires single { IsSingle N.key rows.old n }
    requires fresh { IsFresh N.key rows.old n (N.key node) }
    ensures linked { IsLinked N.marks rows.new (n + 1) }
    ensures single { IsSingle N.key rows.new (n + 1) }
    ensures found { found rows.new (n + 1) ≡ found rows.old n ++ (node, value) ∷ [] }
{
    let bucket = bucket_of(rows, &node);
    rows[n] = Row {
        node,
        value,
        next: rows[bucket].head,
        head: rows[n].head,
    };
    rows[bucket].head = n as u16;
}

// Takes row n, the last in use, out of its chain.
pub(crate) fn remove<N: NodeKind, V: Copy>(rows: &mut [Row<N, V>], n: usize)
    requires fits { n < length rows.old }
    requires few { length rows.old ≤ 65536 }
    requires linked { IsLinked N.marks rows.old (n + 1) }
    requires single { IsSingle N.key rows.old (n + 1) }
    ensures linked { IsLinked N.marks rows.new n }
    ensures single { IsSingle N.key rows.new n }
    ensures found { found rows.new n ≡ found rows.old n }
    ensures long { length rows.new ≡ length rows.old }
{
    let node = rows[n].node;
    let next = rows[n].next;
    let bucket = bucket_of(rows, &node);
    rows[bucket].head = next;
}
