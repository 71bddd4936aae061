// Why there is no route to tell of.
ghost use Rattle.std.specs.Prelude.{◌≡◌};
ghost use Rattle.capi.specs.Codes.{code_of};

use crate::told;
use chart::ChartRefusal;
use planner::MakeRefusal;
use routes::RouteRefusal;

// Why there is no route. Made by `map_err` and `ok_or`, where the calls are.
#[derive(Clone, Copy)]
pub(crate) enum Failure {
    NoMethod,
    NoMemory,
    NoRoute,
    Chart(ChartRefusal),
    Planner(MakeRefusal),
    Route(RouteRefusal),
}

// The code that a caller is told.
impl From<Failure> for u32 {
    ghost from_gives = { λ failure code. code ≡ code_of failure };

    fn from(failure: Failure) -> u32 {
        match failure {
            Failure::NoMethod => told::NO_METHOD,
            Failure::NoMemory => told::NO_MEMORY,
            Failure::NoRoute => told::NO_ROUTE,
            Failure::Chart(refusal) => u32::from(u8::from(refusal)),
            Failure::Planner(refusal) => u32::from(u8::from(refusal)),
            Failure::Route(refusal) => u32::from(u8::from(refusal)),
        }
    }
}
