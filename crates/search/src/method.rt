// The searches by name.
ghost use Rattle.std.specs.Prelude.{◌≡◌, ◌≢◌, Some, MatchResult, codes};
ghost use Rattle.std.specs.Fmt.{padded};
ghost use Rattle.search.specs.Names.{name_of};

use std::error::Error;
use std::fmt;
use std::str::FromStr;

/// The published methods.
///
/// ```
/// let method: Method = "astar_bag".parse()?;
/// println!(rt; "{method}")?; // astar_bag
/// ```
#[derive(Clone, Copy, Debug, PartialEq, Eq)]
pub enum Method {
    /// A lightest route, without a guess.
    Dijkstra,
    /// A lightest route by a true guess.
    Astar,
    /// All lightest routes by a true guess; each road has to weigh something.
    AstarBag,
    /// A lightest route by a true guess, with two queues in place of a heap.
    Fringe,
    /// A lightest route by a true guess; of memory it uses rows for one path only.
    Idastar,
}

impl Method {
    /// All of them, in this order.
    ///
    /// ```
    /// for method in Method::ALL {
    ///     println!(rt; "{method}")?;
    /// }
    /// ```
    pub const ALL: [Method; 5] = [
        Method::Dijkstra,
        Method::Astar,
        Method::AstarBag,
        Method::Fringe,
        Method::Idastar,
    ];

    /// The name by which users ask for it.
    pub fn name(self) -> &'static str
        ensures { result.now ≡ name_of self }
    {
        match self {
            Method::Dijkstra => "dijkstra",
            Method::Astar => "astar",
            Method::AstarBag => "astar_bag",
            Method::Fringe => "fringe",
            Method::Idastar => "idastar",
        }
    }
}

/// By its name, padded as a formatter asks.
impl fmt::Display for Method {
    ghost output = { λ m. Some (name_of m) };

    ghost styled_output = { λ m spec. Some (padded spec (name_of m)) };

    fn fmt<W: fmt::Write>(&self, f: &mut fmt::Formatter<W>) -> fmt::Result {
        f.pad(self.name())
    }
}

/// The search that has the name; no other text has one.
impl FromStr for Method {
    ghost use Rattle.search.specs.declared.method.Method.{Method};

    type Err = UnknownName;

    ghost from_str_gives = { λ text r. MatchResult r (λ m. name_of m ≡ text)
        (λ _. (m : Method) → name_of m ≢ text) };

    fn from_str(text: &str) -> Result<Method, UnknownName> {
        match text {
            "dijkstra" => Ok(Method::Dijkstra),
            "astar" => Ok(Method::Astar),
            "astar_bag" => Ok(Method::AstarBag),
            "fringe" => Ok(Method::Fringe),
            "idastar" => Ok(Method::Idastar),
            _ => Err(UnknownName),
        }
    }
}

/// No search has the name.
#[derive(Clone, Copy, Debug, PartialEq, Eq)]
pub struct UnknownName;

// By hand: what a derive writes has no contract.
impl fmt::Display for UnknownName {
    ghost output = { λ _. Some (codes "no search has this name") };

    fn fmt<W: fmt::Write>(&self, f: &mut fmt::Formatter<W>) -> fmt::Result {
        f.write_str("no search has this name")
    }
}

impl Error for UnknownName {}
