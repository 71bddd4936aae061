// A row of a register.
ghost use Rattle.std.specs.Prelude.{◌≡◌};

// A node with its value, the next row of its bucket, and the latest row of the bucket that has this row's number. Rows name
// each other by number, since they are lent and nothing is allocated.
#[derive(Clone, Copy)]
pub struct Row<N, V> {
    pub(crate) node: N,
    pub(crate) value: V,
    pub(crate) next: u16,
    pub(crate) head: u16,
}

impl<N, V> Row<N, V> {
    // A row in no chain.
    pub fn new(node: N, value: V) -> Row<N, V>
        ensures { result ≡ record { node = node; value = value; next = 0; head = 0 } }
    {
        Row {
            node,
            value,
            next: 0,
            head: 0,
        }
    }
}
