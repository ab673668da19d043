// The run on to the next rule that is reduced.
ghost use Rattle.std.specs.Prelude.{◌≡◌, length, None};
ghost use Rattle.grammar.specs.Grammar.{Grammar};
ghost use Rattle.grammar.specs.Prepared.{Describes};
ghost use Rattle.parser.specs.Drive.{advance_of};
ghost use Rattle.parser.specs.Told.{Cleared, advanced_by, config_of};

use crate::config::{State, Step, move_once};
use grammar::prepared::Prepared;
use items::sets::ItemSet;
use words::rows::zeroes;

/// Moves until a rule is reduced.
fn next_rule(stack: &mut [u64], state: &mut State, text: &[u8], grammar: &Prepared) -> Option<u8>
    ensures { (g : Grammar) → Describes grammar.now g → advance_of g text.now (config_of stack.old state.old) ≡ advanced_by result (config_of stack.new state.new) }
{
    'turn: for moves in 0..text.len() + 1 {
        match move_once(stack, state, text, grammar) {
            Ok(Step::Shifted) => {}
            Ok(Step::Reduced(rule)) => return Some(rule),
            Err(_) => return None,
        }
    }
    None
}

/// Leaves nothing of a configuration.
fn clear(stack: &mut [u64], state: &mut State)
    ensures { Cleared (length stack.old) stack.new state.new }
{
    zeroes(stack);
    *state = State {
        height: 0,
        taken: 0,
        items: ItemSet::default(),
    };
}

/// On to the next rule that is reduced; if there is none, nothing is left of the configuration.
#[tactic(auto, unfolding(crate::specs::Told::advanced_by))]
pub fn advance(stack: &mut [u64], state: &mut State, text: &[u8], grammar: &Prepared) -> Option<u8>
    ensures rule { (g : Grammar) → Describes grammar.now g → advance_of g text.now (config_of stack.old state.old) ≡ advanced_by result (config_of stack.new state.new) }
    ensures cleared { result ≡ None → Cleared (length stack.old) stack.new state.new }
{
    let Some(rule) = next_rule(stack, state, text, grammar) else {
        clear(stack, state);
        return None;
    };
    Some(rule)
}
