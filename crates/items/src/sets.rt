// Item sets: closure, goto, and the action at a lookahead.
ghost use Rattle.std.specs.Prelude.{◌≡◌, ℕ, suc, ◌<◌, not, ◌&&◌, ◌||◌, length, set as set_at, ◌==◌, nat_le, nat_lt};
ghost use Rattle.words.specs.Bits.{has_bit};
ghost use Rattle.words.specs.Iter.{Grew, counted};
ghost use Rattle.words.specs.Rows.{size};
ghost use Rattle.grammar.specs.Grammar.{Grammar, rule as rule_of};
ghost use Rattle.grammar.specs.Places.{places, rest};
ghost use Rattle.grammar.specs.Rows.{begins_with};
ghost use Rattle.grammar.specs.Table.{OfGrammar, Shows, symbol_in};
ghost use Rattle.grammar.specs.Analysed.{Analysed};
ghost use Rattle.grammar.specs.Prepared.{Describes, OfPrepared};
ghost use Rattle.items.specs.Code.{Begins, ComputedPlace};
ghost use Rattle.items.specs.Behind.{GoesTo, Starts};
ghost use Rattle.items.specs.Sets.{no_items, begin_rule, begun_ahead, close_place as close_place_of, close_round_lem as close_round_of, closure, advance_place_lem as advance_place_of, advanced_set, goto as goto_of, start_set, reduce_at, shift_at};
ghost use Rattle.items.specs.Actions.{reduces_place, shifts_place, first_rule_lem, action_of, acts_at};

use grammar::analysis::Analysis;
use grammar::prepared::Prepared;
use grammar::symbol::Symbol;
use grammar::table::Table;
use words::bits::{bit, test};
use words::rounds::{each_in, until_still};
use words::rows::{at, put};

/// What is ahead where no sign is: the end of the text.
// a number and no Option, since lookaheads are the bits of a word, and the end is bit 24
pub const END: u8 = 24;

/// An item set: for each place of the grammar the lookaheads with which it is there, a bit each.
#[derive(Clone, Copy)]
pub struct ItemSet {
    pub words: [u64; 192],
}

impl Default for ItemSet {
    /// No items.
    fn default() -> ItemSet
        ensures { result.words ≡ no_items }
    {
        ItemSet { words: [0; 192] }
    }
}

/// Whether a rule is for the name that is next at a place.
pub fn is_next(table: &Table, place: usize, rule: usize) -> bool
    ensures { (g : Grammar) → Shows table.now g → place < places g → rule < length g → result ≡ begins_with (rule_of g rule).left (rest g place) }
{
    table.next_at(place) == Some(Symbol::Name(table.left_of(rule)))
}

/// What a rule begun at a place has ahead, where the place has `here`.
fn ahead_of(analysis: &Analysis, place: usize, here: u64) -> u64
    ensures { (g : Grammar) → Analysed g analysis.now → place < places g → result ≡ begun_ahead g place here }
{
    if here == 0 {
        return 0;
    }
    let passed = if analysis.passes_at(place) { here } else { 0 };
    analysis.behind_at(place) | passed
}

/// Begins a rule with `ahead`, if it is for the symbol that is next.
fn begin(set: &mut [u64], table: &Table, next: Option<Symbol>, rule: usize, ahead: u64) -> bool
    ensures value { Begins table.now next rule ahead set.old set.new }
    ensures grew { Grew size set.old set.new result }
{
    if next == Some(Symbol::Name(table.left_of(rule))) {
        put(set, usize::from(table.first_of(rule)), ahead)
    } else {
        false
    }
}

/// Whether there is a rule to begin at a place: something is ahead, and a name is next.
fn begins_any(table: &Table, place: usize, ahead: u64) -> bool
    ensures { result ≡ (not (ahead == 0) && (nat_le 32 (symbol_in table.now place) && nat_lt (symbol_in table.now place) 64)) }
{
    ahead != 0 && matches!(table.next_at(place), Some(Symbol::Name(_)))
}

/// Begins every rule of the name that is next at the place.
fn begin_rules(set: &mut [u64], table: &Table, place: usize, ahead: u64) -> bool
    ensures value { ComputedPlace table.now (λ g p. counted (length g) (begin_rule g p ahead) set.old) place set.new }
    ensures grew { Grew size set.old set.new result }
{
    if !begins_any(table, place, ahead) {
        return false;
    }
    // read once, since each rule is asked about it
    let next = table.next_at(place);
    each_in(
        set,
        table.rules,
        |set, rule| begin(set, table, next, rule, ahead),
    )
}

/// Begins the rules of a place, with what it has.
fn close_place(set: &mut [u64], grammar: &Prepared, place: usize) -> bool
    ensures value { (g : Grammar) → Describes grammar.now g → place < places g → set.new ≡ close_place_of g place set.old }
    ensures grew { Grew size set.old set.new result }
{
    let ahead = ahead_of(&grammar.analysis, place, at(set, place));
    begin_rules(set, &grammar.table, place, ahead)
}

/// One round over the places; says whether it added a lookahead.
fn close_round(set: &mut [u64], grammar: &Prepared) -> bool
    ensures value { OfPrepared grammar.now (λ g. close_round_of g set.old) set.new }
    ensures grew { Grew size set.old set.new result }
{
    each_in(
        set,
        grammar.table.places,
        |set, place| close_place(set, grammar, place),
    )
}

/// Rounds until one adds nothing.
pub fn close(set: &mut [u64], grammar: &Prepared)
    ensures { (g : Grammar) → Describes grammar.now g → length set.old ≡ 192 → set.new ≡ closure g set.old }
{
    until_still(set, |set| close_round(set, grammar));
}

/// Sets the word behind a place, if there is one.
fn set_behind(words: &mut [u64], place: usize, word: u64)
    ensures { words.new ≡ set_at words.old (suc place) word }
{
    // no get_mut: of a slice it leaves a proof the length alone
    let behind = place.saturating_add(1);
    if behind < words.len() {
        words[behind] = word;
    }
}

/// Puts what a place has one place on, if the symbol is next there.
fn advance_place(next: &mut [u64], set: &[u64], table: &Table, symbol: u8, place: usize)
    ensures { ComputedPlace table.now (λ g p. advance_place_of g symbol set.now p next.old) place next.new }
{
    // by the byte, since the symbol is one of the stack's bytes
    if table.symbol_at(place) == symbol {
        set_behind(next, place, at(set, place));
    }
}

/// The items of the set that have the symbol next, each with it done.
pub fn advance(set: &ItemSet, table: &Table, symbol: u8) -> ItemSet
    ensures { OfGrammar table.now (λ g. advanced_set g symbol set.now.words) result.words }
{
    // no `each_in`: one row is read, and another one written
    let mut next = ItemSet::default();
    for place in 0..table.places {
        advance_place(&mut next.words, &set.words, table, symbol, place);
    }
    next
}

/// The set one symbol on: of the set of a stack, the set of that stack with the symbol pushed.
pub fn goto(set: &ItemSet, grammar: &Prepared, symbol: u8) -> ItemSet
    ensures value { OfPrepared grammar.now (λ g. goto_of g symbol set.now.words) result.words }
    ensures meaning { GoesTo grammar.now set.now.words symbol result.words }
{
    let mut next = advance(set, &grammar.table, symbol);
    close(&mut next.words, grammar);
    next
}

/// The set at the beginning, of the empty stack: the first rule, before the end.
pub fn start(grammar: &Prepared) -> ItemSet
    ensures value { OfPrepared grammar.now start_set result.words }
    ensures meaning { Starts grammar.now result.words }
{
    let mut set = ItemSet::default();
    put(&mut set.words, 0, bit(u64::from(END)));
    close(&mut set.words, grammar);
    set
}

/// What to do before a sign: a rule is reduced, or the sign is shifted.
#[derive(Clone, Copy)]
pub enum Action {
    Reduce(u8),
    Shift,
}

/// Whether a place is complete and has the sign ahead.
fn reduces(set: &[u64], table: &Table, ahead: u8, place: usize) -> bool
    ensures { ComputedPlace table.now (λ g. reduces_place g set.now ahead) place result }
{
    table.next_at(place).is_none() && test(at(set, place), u64::from(ahead))
}

/// Whether a place has the sign next, and something ahead.
fn shifts(set: &[u64], table: &Table, ahead: u8, place: usize) -> bool
    ensures { ComputedPlace table.now (λ g. shifts_place g set.now ahead) place result }
{
    // the end is no sign: asked first, so that before it no place is looked at
    ahead < END && (table.next_at(place) == Some(Symbol::Sign(ahead)) && at(set, place) != 0)
}

/// The rule of the first complete place that has the sign ahead.
fn reduction(set: &[u64], table: &Table, ahead: u8) -> Option<u8>
    ensures { OfGrammar table.now (λ g. first_rule_lem (reduce_at g set.now ahead)) result }
{
    (0..table.places)
        .find(|place| reduces(set, table, ahead, *place))
        .map(|place| table.owner_of(place))
}

/// Whether a place has the sign next, and something ahead.
fn can_shift(set: &[u64], table: &Table, ahead: u8) -> bool
    ensures { OfGrammar table.now (λ g. shift_at g set.now ahead) result }
{
    (0..table.places).any(|place| shifts(set, table, ahead, place))
}

/// The action before a sign, if there is one.
pub fn action_at(set: &ItemSet, table: &Table, ahead: u8) -> Option<Action>
    ensures { OfGrammar table.now (λ g. action_of (reduce_at g set.now.words ahead) (shift_at g set.now.words ahead)) result }
{
    if let Some(rule) = reduction(&set.words, table, ahead) {
        return Some(Action::Reduce(rule));
    }
    can_shift(&set.words, table, ahead).then_some(Action::Shift)
}

/// The signs before which a place has an action, a bit each.
fn expected_at(set: &[u64], table: &Table, place: usize) -> u64
    ensures { (g : Grammar) → Shows table.now g → place < places g → (t : ℕ) → has_bit t result ≡ (reduces_place g set.now t place || shifts_place g set.now t place) }
{
    let here = at(set, place);
    if here == 0 {
        return 0;
    }
    match table.next_at(place) {
        None => here,
        Some(Symbol::Sign(sign)) => bit(u64::from(sign)),
        Some(Symbol::Name(_)) => 0,
    }
}

/// The signs before which there is an action, a bit each.
pub fn expected(set: &ItemSet, table: &Table) -> u64
    ensures { (g : Grammar) → Shows table.now g → (t : ℕ) → has_bit t result ≡ acts_at g set.now.words t }
{
    (0..table.places).fold(
        0,
        |signs, place| signs | expected_at(&set.words, table, place),
    )
}
