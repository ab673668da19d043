// Steps on a row of words that each add bits or leave it as it is: at each number of a range, and in rounds until one adds nothing.
ghost use Rattle.std.specs.Prelude.{◌≡◌, ℕ, ◌*◌, ◌<◌, Bool, List, length};
ghost use Rattle.words.specs.Iter.{Grew, counted, iter};
ghost use Rattle.words.specs.Rounds.{RoundGrows, RoundIs, StepGrows, StepIs};
ghost use Rattle.words.specs.Rows.{size};

/// Rounds until one says that it added nothing.
pub fn until_still<F: Fn(&mut [u64]) -> bool>(row: &mut [u64], round: F)
    requires callable { F.IsAlwaysCallable round }
    requires grows { RoundGrows F.Fn round }
    ensures { (f : List ℕ → List ℕ) → RoundIs F.Fn round f → row.new ≡ iter (64 * length row.old) f row.old }
{
    'round: while round(row) {}
}

/// The step at 0, 1, .. below `count`; says whether one of them added a bit.
pub fn each_in<F: Fn(&mut [u64], usize) -> bool>(row: &mut [u64], count: usize, step: F) -> bool
    requires callable { (x : _) (i : ℕ) → i < count → F.pre step x i }
    requires grows { StepGrows F.Fn step count }
    ensures grew { Grew size row.old row.new result }
    ensures value { (f : ℕ → List ℕ → List ℕ) → StepIs F.Fn step count f → row.new ≡ counted count f row.old }
{
    let mut changed = false;
    for i in 0..count {
        changed |= step(row, i);
    }
    changed
}
