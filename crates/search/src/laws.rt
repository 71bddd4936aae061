// What is proved of the searches and of histories of calls.
ghost use Rattle.std.specs.Prelude.{◌≡◌};
ghost use Rattle.search.specs.Names.{methods};
ghost use Rattle.search.specs.Laws.{SearchesRight, SearchesEnd};
ghost use Rattle.search.specs.History.{HistoriesFair};
ghost use Rattle.search.specs.Worked.{Worked};

use crate::method::Method;

/// `Method::ALL` has each method, in the order dijkstra, astar, astar_bag, fringe, idastar. A fact: the call does nothing.
pub fn methods_stand()
    ensures { Method.ALL ≡ methods }
{}

/// What a search finds are routes, and lightest ones by a true guess, by astar_bag all of them, and it finds nothing only
/// where there is no route; every search ends, and answers once; the law over all histories of calls; and worked examples of
/// the searches and of a history. These are facts: the call does nothing.
pub fn laws_stand()
    ensures right { SearchesRight }
    ensures end { SearchesEnd }
    ensures histories { HistoriesFair }
    ensures examples { Worked }
{}
