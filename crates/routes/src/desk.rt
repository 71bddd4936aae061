// A planner at its desk.
use kinds::{CostKind, NodeKind};
use planner::Planner;

/// A planner, with room for its routes.
///
/// Its parts are public and are lent one by one, as `Route::next(&mut desk.planner, desk.out)`.
#[derive(Drop)]
pub struct Desk<'a, N: NodeKind, C: CostKind> {
    pub planner: Planner<'a, N, C>,
    pub out: &'a mut [N],
}
