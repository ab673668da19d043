// A run on lent memory, counted down: some words hold the number of moves that it may still make, others the stack.
ghost use Rattle.std.specs.Prelude.{◌≡◌, ◌-◌, ◌*◌, ◌^◌, length};
ghost use Rattle.words.specs.Countdown.{value};
ghost use Rattle.grammar.specs.Grammar.{Grammar};
ghost use Rattle.grammar.specs.Prepared.{Describes};
ghost use Rattle.parser.specs.Drive.{run_to, start_config};
ghost use Rattle.parser.specs.Told.{config_of, halted};

use crate::config::{Halt, State, move_once};
use grammar::prepared::Prepared;
use items::sets::start;
use words::countdown::{fill, tick};
use words::rows::zeroes;

/// The empty stack, with all moves still to make that the words can count.
// two slices and not one struct: they are halves of what a caller lends, and the borrow ends with the run
pub fn begin(moves: &mut [u64], stack: &mut [u64], grammar: &Prepared) -> State
    ensures moves { value moves.new ≡ 2 ^ (64 * length moves.old) - 1 }
    ensures stack { (g : Grammar) → Describes grammar.now g → config_of stack.new result ≡ start_config g (8 * length stack.old) }
{
    fill(moves);
    zeroes(stack);
    State {
        height: 0,
        taken: 0,
        items: start(grammar),
    }
}

/// Runs until so many signs are taken.
pub fn run(
    moves: &mut [u64],
    stack: &mut [u64],
    state: &mut State,
    last: usize,
    text: &[u8],
    grammar: &Prepared,
) -> Result<(), Halt>
    ensures { (g : Grammar) → Describes grammar.now g → halted result (config_of stack.new state.new) ≡ run_to (value moves.old) last g text.now (config_of stack.old state.old) }
{
    'turn: while tick(moves) {
        if state.taken >= last {
            return Ok(());
        }
        move_once(stack, state, text, grammar)?;
    }
    Err(Halt::Full)
}
