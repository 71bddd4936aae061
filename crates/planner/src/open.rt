// An open road: the row that it leaves, its rank, the node that it leads to, and the sum of costs there.
#[derive(Clone, Copy)]
pub(crate) struct Open<N, C> {
    pub(crate) row: u16,
    pub(crate) rank: u16,
    pub(crate) node: N,
    pub(crate) sum: C,
}
