// A silent run of the parser on lent memory: a countdown in its first words, the stack in the others.
ghost use Rattle.std.specs.Prelude.{◌≡◌, ◌-◌, ◌*◌, ◌^◌, ◌<◌, ◌≤◌, ◌&&◌, length, replicate, ◌==◌, slice_index};
ghost use Rattle.words.specs.Packed.{unpacked};
ghost use Rattle.grammar.specs.Grammar.{Grammar};
ghost use Rattle.grammar.specs.Prepared.{Describes};
ghost use Rattle.parser.specs.Drive.{check_of, ending as ending_of, gave_out};
ghost use Rattle.parser.specs.Checks.{Checks};
ghost use Rattle.parser.specs.Told.{config_of, ended, halted};

use crate::config::{Halt, State};
use crate::run::{begin, run};
use grammar::prepared::Prepared;
use grammar::table::FIRST_NAME;
use words::packed::read;
use words::rows::zeroes;

/// Why a text is not read.
#[derive(Clone, Copy, Debug, PartialEq, Eq)]
pub enum Unread {
    /// The text is wrong behind so many signs.
    Wrong(u64),
    /// The moves or the room gave out.
    GaveOut,
}

/// Whether all is taken, and the beginning's name alone stands on the stack.
fn is_read(stack: &[u64], state: &State, text: &[u8]) -> bool
    ensures { result ≡ (state.now.taken == length text.now && (state.now.height == 1 && slice_index (unpacked stack.now) 0 == 32)) }
{
    state.taken == text.len() && (state.height == 1 && read(stack, 0) == FIRST_NAME)
}

/// The ending where there is no move.
#[tactic(auto, unfolding(crate::specs::Told::ended, crate::specs::Drive::ending))]
fn end_at(stack: &[u64], state: &State, text: &[u8]) -> Result<(), Unread>
    ensures { ended result ≡ ending_of text.now (config_of stack.now state.now) }
{
    if is_read(stack, state, text) {
        Ok(())
    } else {
        // a `usize` has no `From` into a `u64`
        Err(Unread::Wrong(state.taken as u64))
    }
}

/// Runs from the empty stack while there are moves, and reads off how it ends.
fn read_through(
    moves: &mut [u64],
    stack: &mut [u64],
    text: &[u8],
    grammar: &Prepared,
) -> Result<(), Unread>
    ensures { (g : Grammar) → Describes grammar.now g → ended result ≡ check_of g text.now (8 * length stack.old) (2 ^ (64 * length moves.old) - 1) }
{
    // `next::run_through` begins so too: of a pair of state and halt, given back by one function, the arms of the match do not learn what it ensures
    let mut state = begin(moves, stack, grammar);
    match run(moves, stack, &mut state, text.len() + 1, text, grammar) {
        Err(Halt::Stuck) => end_at(stack, &state, text),
        Err(Halt::Full) => Err(Unread::GaveOut),
        // never, as more signs are not taken than there are
        Ok(()) => Err(Unread::GaveOut),
    }
}

/// Whether the text is read, or where it is wrong: `fuel` words for the number of moves, the rest for the stack. The work is cleared.
#[tactic(auto, unfolding(crate::specs::Told::ended))]
pub fn check(work: &mut [u64], fuel: usize, text: &[u8], grammar: &Prepared) -> Result<(), Unread>
    ensures value { fuel ≤ length work.old → (g : Grammar) → Describes grammar.now g → ended result ≡ check_of g text.now (8 * (length work.old - fuel)) (2 ^ (64 * fuel) - 1) }
    ensures cleared { fuel ≤ length work.old → work.new ≡ replicate (length work.old) 0 }
    ensures refused { length work.old < fuel → (ended result ≡ gave_out) × (work.new ≡ work.old) }
    ensures meaning { Checks grammar.now (length work.old) fuel text.now result }
{
    // `next_signs` lends and clears so too: a function of a closure over both slices would be longer than these lines, by its contract
    let Some((moves, stack)) = work.split_at_mut_checked(fuel) else {
        return Err(Unread::GaveOut);
    };
    let ending = read_through(moves, stack, text, grammar);
    zeroes(work);
    ending
}
