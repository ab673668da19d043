// Two places of a grammar, side by side: their items may share a stack.
ghost use Rattle.std.specs.Prelude.{◌≡◌, suc, ◌<◌};
ghost use Rattle.conflicts.specs.Pairs.{pair as pair_of};

/// From the word of a pair to that of the two next places.
const NEXT: usize = 193;

/// Two places. Each number fits a byte, so that the index of a pair's word fits a `usize`.
#[derive(Clone, Copy)]
pub(crate) struct Pair {
    pub first: usize,
    pub second: usize,
    ghost small: { (first < 256) × (second < 256) },
}

impl Pair {
    /// The first place beside the second.
    pub fn new(first: usize, second: usize) -> Pair
        requires { (first < 256) × (second < 256) }
        ensures { (result.first ≡ first) × (result.second ≡ second) }
    {
        Pair { first, second }
    }

    /// Where the word of the pair stands.
    pub fn index(self) -> usize
        ensures { result ≡ pair_of self.first self.second }
    {
        192 * self.first + self.second
    }

    /// Where the word of the two next places stands.
    pub fn next_index(self) -> usize
        ensures { result ≡ pair_of (suc self.first) (suc self.second) }
    {
        self.index() + NEXT
    }

    /// The other way round.
    pub fn mirror(self) -> Pair
        ensures { (result.first ≡ self.second) × (result.second ≡ self.first) }
    {
        Pair::new(self.second, self.first)
    }
}
