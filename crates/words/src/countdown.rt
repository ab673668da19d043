// A countdown: a number held in words, the lowest first.
ghost use Rattle.std.specs.Prelude.{◌≡◌, ◌-◌, ◌*◌, ◌^◌, length};
ghost use Rattle.words.specs.Countdown.{IsLowest, Ticked, value};

/// Sets the number to the largest that the words can hold.
pub fn fill(fuel: &mut [u64])
    ensures { value fuel.new ≡ 2 ^ (64 * length fuel.old) - 1 }
{
    fuel.fill(u64::MAX);
}

/// The place of the lowest word that is not 0.
fn lowest(fuel: &[u64]) -> Option<usize>
    ensures { IsLowest fuel.now result }
{
    fuel.iter().position(|word| *word != 0)
}

/// Takes one from the number, and says whether there was one to take.
pub fn tick(fuel: &mut [u64]) -> bool
    ensures { Ticked fuel.old fuel.new result }
{
    // whether, and no `Result`: a run goes on `while tick(..)`
    let Some(place) = lowest(fuel) else {
        return false;
    };
    fuel[place] -= 1;
    // the words below are 0, and borrow
    fuel[..place].fill(u64::MAX);
    true
}
