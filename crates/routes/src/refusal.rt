// Why a seek has no route.
ghost use Rattle.std.specs.Prelude.{◌≡◌, Some};
ghost use Rattle.routes.specs.declared.refusal.RouteRefusal.TheVariants.{Seek, HandOut};

use search::{HandOutRefusal, SeekRefusal};
use std::error::Error;
use std::fmt;

/// Why a seek gives no route where one may begin: the search was refused, or the room is too short for the route that it found.
#[derive(Clone, Copy, PartialEq, Eq, Debug)]
pub enum RouteRefusal {
    /// The search was refused. The planner has nothing to hand out then.
    Seek(SeekRefusal),
    /// The route does not fit into the room. The planner keeps it as the next one to hand out.
    HandOut(HandOutRefusal),
}

impl From<SeekRefusal> for RouteRefusal {
    ghost from_gives = { λ refusal r. r ≡ Seek refusal };

    fn from(refusal: SeekRefusal) -> RouteRefusal {
        RouteRefusal::Seek(refusal)
    }
}

impl From<HandOutRefusal> for RouteRefusal {
    ghost from_gives = { λ refusal r. r ≡ HandOut refusal };

    fn from(refusal: HandOutRefusal) -> RouteRefusal {
        RouteRefusal::HandOut(refusal)
    }
}

// The number by which users know it.
impl From<RouteRefusal> for u8 {
    ghost use Rattle.routes.specs.Refusals.{route_number};

    ghost from_gives = { λ refusal n. n ≡ route_number refusal };

    fn from(refusal: RouteRefusal) -> u8 {
        match refusal {
            RouteRefusal::Seek(seek) => u8::from(seek),
            RouteRefusal::HandOut(hand_out) => u8::from(hand_out),
        }
    }
}

// In words, with the values of the refusal below.
impl fmt::Display for RouteRefusal {
    ghost use Rattle.routes.specs.Refusals.{route_message};

    ghost output = { λ refusal. Some (route_message refusal) };

    fn fmt<W: fmt::Write>(&self, f: &mut fmt::Formatter<W>) -> fmt::Result {
        match self {
            RouteRefusal::Seek(seek) => write!(f, "{seek}"),
            RouteRefusal::HandOut(hand_out) => write!(f, "{hand_out}"),
        }
    }
}

impl Error for RouteRefusal {}
