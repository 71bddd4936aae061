// What a node kind is: a key for each node, by which nodes are equal, and a mark that equal keys share.
ghost use Rattle.std.specs.Prelude.{◌≡◌, ℕ, ◌==◌};

pub trait NodeKind: Copy + Eq {
    ghost key: { Self → ℕ };

    ghost marks: { Self → ℕ };

    // A number to hash by.
    fn mark(&self) -> u32
        ensures { result ≡ marks self.now };

    // Two nodes are equal where they have one key, and then have one mark.
    ghost equal: { (a b : Self) → Self.eq a b ≡ (key a == key b) };

    ghost alike: { (a b : Self) → key a ≡ key b → marks a ≡ marks b };
}
