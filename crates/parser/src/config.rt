// A configuration of the parser, and one move of it. The stack is lent, a byte to a symbol.
ghost use Rattle.std.specs.Prelude.{◌≡◌, ◌+◌, ◌-◌, ◌^◌, ◌<◌, ◌≤◌, length, ◌==◌, slice_index_or};
ghost use Rattle.words.specs.Packed.{stacked, unpacked};
ghost use Rattle.grammar.specs.Grammar.{Grammar, pick, rule as rule_of};
ghost use Rattle.grammar.specs.Table.{Shows};
ghost use Rattle.grammar.specs.Prepared.{Describes};
ghost use Rattle.items.specs.Sets.{goto as goto_of};
ghost use Rattle.parser.specs.Drive.{items_of, moved, reduce_move, shift_move};
ghost use Rattle.parser.specs.Told.{Told, config_of};
ghost use Rattle.parser.specs.declared.config.Halt.TheVariants.{Full};

use grammar::prepared::Prepared;
use grammar::table::{FIRST_NAME, Table};
use items::sets::{Action, END, ItemSet, action_at, goto, start};
use words::packed::{self, push, read};

/// A configuration without the room for its stack: how many symbols stand on it, how many signs are taken, and the item set behind the stack.
// not one struct with the stack, whose words a caller lends for one call: it keeps the numbers in words of their own, and the items are worked out again
#[derive(Clone, Copy)]
pub struct State {
    pub height: usize,
    pub taken: usize,
    pub items: ItemSet,
}

/// The sign ahead, after so many are taken; `END` past the last.
pub fn lookahead(text: &[u8], taken: usize) -> u8
    ensures { result ≡ slice_index_or text.now taken 24 }
{
    // what is left of the text is handed on from its middle, and looked at: no `at_or`
    let Some([sign, ..]) = text.get(taken..) else {
        return END;
    };
    *sign
}

/// The item set behind the stack, worked out from its bottom.
pub fn items_behind(stack: &[u64], height: usize, grammar: &Prepared) -> ItemSet
    ensures { (g : Grammar) → Describes grammar.now g → result.words ≡ items_of g (stacked height (unpacked stack.now)) }
{
    (0..height).fold(start(grammar), |items, at| {
        goto(&items, grammar, read(stack, at))
    })
}

/// How many symbols a rule has.
fn symbols_of(table: &Table, rule: u8) -> usize
    ensures { (g : Grammar) → Shows table.now g → rule < length g → result ≡ length (rule_of g rule).right }
{
    let begin = usize::from(table.first_of(usize::from(rule)));
    table.row_at(begin).len()
}

/// The code of the name that a rule is for.
fn name_of(table: &Table, rule: u8) -> u8
    ensures { (g : Grammar) → Shows table.now g → rule < length g → result ≡ 32 + (rule_of g rule).left }
{
    // a sum, and no conversion of a symbol: this is the one place here where a name becomes a byte
    table.left_of(usize::from(rule)).saturating_add(FIRST_NAME)
}

/// The item set behind a stack whose top, `name`, took the place of `count` symbols.
fn items_after(
    before: &ItemSet,
    count: usize,
    name: u8,
    stack: &[u64],
    height: usize,
    grammar: &Prepared,
) -> ItemSet
    ensures { (g : Grammar) → Describes grammar.now g → result.words ≡ pick (count == 0) (goto_of g name before.now.words) (items_of g (stacked height (unpacked stack.now))) }
{
    if count == 0 {
        goto(before, grammar, name)
    } else {
        items_behind(stack, height, grammar)
    }
}

/// What a move did.
#[derive(Clone, Copy, Debug, PartialEq, Eq)]
pub enum Step {
    /// The sign ahead was shifted.
    Shifted,
    /// This rule was reduced.
    Reduced(u8),
}

/// Why a run goes no further.
#[derive(Clone, Copy, Debug, PartialEq, Eq)]
pub enum Halt {
    /// There is no move.
    Stuck,
    /// The lent memory is full: there is no room on the stack, or no more moves can be counted.
    Full,
}

impl From<packed::Full> for Halt {
    ghost from_gives = { λ _ e. e ≡ Full };

    fn from(_full: packed::Full) -> Halt {
        Halt::Full
    }
}

/// Shifts the sign.
fn shift(stack: &mut [u64], state: &mut State, sign: u8, grammar: &Prepared) -> Result<Step, Halt>
    ensures { (g : Grammar) → Describes grammar.now g → state.old.taken < 2 ^ 64 - 1 → Told (shift_move g (config_of stack.old state.old) sign) (config_of stack.old state.old) result (config_of stack.new state.new) }
{
    push(stack, state.height, sign)?;
    state.items = goto(&state.items, grammar, sign);
    state.height += 1;
    state.taken = state.taken.saturating_add(1);
    Ok(Step::Shifted)
}

/// Reduces the rule.
fn reduce(stack: &mut [u64], state: &mut State, rule: u8, grammar: &Prepared) -> Result<Step, Halt>
    ensures { (g : Grammar) → Describes grammar.now g → rule < length g → Told (reduce_move g (config_of stack.old state.old) rule) (config_of stack.old state.old) result (config_of stack.new state.new) }
{
    let count = symbols_of(&grammar.table, rule);
    let name = name_of(&grammar.table, rule);
    let base = state.height.saturating_sub(count);
    push(stack, base, name)?;
    state.height = base + 1;
    state.items = items_after(&state.items, count, name, stack, base + 1, grammar);
    Ok(Step::Reduced(rule))
}

/// One move: a rule that is complete before the sign ahead is reduced; else that sign is shifted.
pub fn move_once(
    stack: &mut [u64],
    state: &mut State,
    text: &[u8],
    grammar: &Prepared,
) -> Result<Step, Halt>
    ensures { (g : Grammar) → Describes grammar.now g → Told (moved g text.now (config_of stack.old state.old)) (config_of stack.old state.old) result (config_of stack.new state.new) }
{
    let sign = lookahead(text, state.taken);
    let action = action_at(&state.items, &grammar.table, sign).ok_or(Halt::Stuck)?;
    match action {
        Action::Reduce(rule) => reduce(stack, state, rule, grammar),
        Action::Shift => shift(stack, state, sign, grammar),
    }
}

/// A configuration that is taken up again: the item set is worked out from the bottom.
pub fn resume(stack: &[u64], height: usize, taken: usize, grammar: &Prepared) -> State
    ensures height { result.height ≡ height }
    ensures taken { result.taken ≡ taken }
    ensures items { (g : Grammar) → Describes grammar.now g → result.items.words ≡ items_of g (stacked height (unpacked stack.now)) }
{
    let items = items_behind(stack, height, grammar);
    State {
        height,
        taken,
        items,
    }
}
