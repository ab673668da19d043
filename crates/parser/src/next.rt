// What may come next: a run on lent memory right behind the last sign of a text, and the signs before which there is an action there.
ghost use Rattle.std.specs.Prelude.{◌≡◌, ◌-◌, ◌*◌, ◌^◌, ◌<◌, ◌≤◌, length, replicate};
ghost use Rattle.grammar.specs.Grammar.{Grammar};
ghost use Rattle.grammar.specs.Prepared.{Describes};
ghost use Rattle.parser.specs.Drive.{next_of, unknown};
ghost use Rattle.parser.specs.Checks.{TellsNext};
ghost use Rattle.parser.specs.Told.{followed};

use crate::check::Unread;
use crate::config::Halt;
use crate::run::{begin, run};
use grammar::prepared::Prepared;
use items::sets::expected;
use words::rows::zeroes;

/// Runs from the empty stack to the end of the text, and looks what is expected there.
fn run_through(
    moves: &mut [u64],
    stack: &mut [u64],
    text: &[u8],
    grammar: &Prepared,
) -> Result<u64, Unread>
    ensures { (g : Grammar) → Describes grammar.now g → followed result ≡ next_of g text.now (8 * length stack.old) (2 ^ (64 * length moves.old) - 1) }
{
    let mut state = begin(moves, stack, grammar);
    match run(moves, stack, &mut state, text.len(), text, grammar) {
        Ok(()) => Ok(expected(&state.items, &grammar.table)),
        // a `usize` has no `From` into a `u64`
        Err(Halt::Stuck) => Err(Unread::Wrong(state.taken as u64)),
        Err(Halt::Full) => Err(Unread::GaveOut),
    }
}

/// By which signs a text may go on, a bit each (bit 24 is the end), or where it is wrong before its end: `fuel` words for the number of moves, the rest for the
/// stack. The work is cleared.
#[tactic(auto, unfolding(crate::specs::Told::followed))]
pub fn next_signs(
    work: &mut [u64],
    fuel: usize,
    text: &[u8],
    grammar: &Prepared,
) -> Result<u64, Unread>
    ensures value { fuel ≤ length work.old → (g : Grammar) → Describes grammar.now g → followed result ≡ next_of g text.now (8 * (length work.old - fuel)) (2 ^ (64 * fuel) - 1) }
    ensures cleared { fuel ≤ length work.old → work.new ≡ replicate (length work.old) 0 }
    ensures refused { length work.old < fuel → (followed result ≡ unknown) × (work.new ≡ work.old) }
    ensures meaning { TellsNext grammar.now (length work.old) fuel text.now result }
{
    let Some((moves, stack)) = work.split_at_mut_checked(fuel) else {
        return Err(Unread::GaveOut);
    };
    let following = run_through(moves, stack, text, grammar);
    zeroes(work);
    following
}
