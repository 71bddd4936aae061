// What holds of every pile of fences and tolls.
ghost use Rattle.graph.specs.Past.{FencesPartRoutes, TollsAddWeight};
ghost use Rattle.graph.specs.Pile.{PilesKeepTruth, PilesNest};

/// Every pile keeps the laws of graphs, a true guess of its bottom graph is a true guess of the pile, and a pile over a
/// pile is a pile. A fence takes away the routes through barred keys and no others, and a toll makes none lighter. A
/// call does nothing: its clauses are the facts.
pub fn piles_keep_truth()
    ensures truth { PilesKeepTruth }
    ensures nested { PilesNest }
    ensures fence { FencesPartRoutes }
    ensures toll { TollsAddWeight }
{}
