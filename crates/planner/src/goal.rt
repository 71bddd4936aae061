// A goal that was taken: its row, and the cost that it was reached at.
#[derive(Clone, Copy)]
pub(crate) struct Goal<C> {
    pub(crate) row: u16,
    pub(crate) cost: C,
}
