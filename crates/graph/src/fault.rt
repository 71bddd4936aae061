// Faults, and their way up through the graphs of a pile.
ghost use Rattle.std.specs.Prelude.{◌≡◌};

/// A road that cannot be answered: its rank, and how many graphs have passed it up since, at most 255.
#[derive(Clone, Copy, PartialEq, Eq, Debug)]
pub struct Fault {
    pub rank: u16,
    pub depth: u8,
}

impl Fault {
    ghost use Rattle.graph.specs.Deeper.{deeper};

    /// The fault as the next graph up answers it.
    pub fn passed_up(self) -> Fault
        ensures { result ≡ deeper self }
    {
        Fault {
            rank: self.rank,
            depth: self.depth.saturating_add(1),
        }
    }
}
