// The analyses of a grammar: nullable, productive and reachable names and FIRST, each by rounds over the rules until nothing changes.
ghost use Rattle.std.specs.Prelude.{◌≡◌, ℕ, ◌*◌, ◌==◌, [], ◌∷◌, length, bit_or, count_ones};
ghost use Rattle.std.specs.Int.Count.{count_trailing_zeros};
ghost use Rattle.words.specs.Iter.{Grew, Up, counted, iter};
ghost use Rattle.words.specs.Rows.{size};
ghost use Rattle.grammar.specs.Grammar.{pick};
ghost use Rattle.grammar.specs.Analysis.{first_round as first_of_rules, first_rule_lem as first_of_rule, firsts as firsts_of, lowest as lowest_of, mark_rule_lem, name_rule, names_in, nullable as nullable_of, productive as productive_of, reach_rule, reachable as reachable_of, useless as useless_of};
ghost use Rattle.grammar.specs.Analysed.{Analyses, ExactAtPlaces, IsBehind, Judges, behind_in, listed, passes_in};
ghost use Rattle.grammar.specs.Marking.{MarkGrows, MarkIs};
ghost use Rattle.grammar.specs.Rows.{coming};
ghost use Rattle.grammar.specs.Table.{OfGrammar, OfRule, OfGrammarWith};

use crate::rows::{row_holds, row_names, row_opening, row_vanishes};
use crate::table::Table;
use std::array;
use words::bits;
use words::rounds::{each_in, until_still};
use words::rows::{at_or, put};

/// The marks with more of them, if there is reason.
fn mark_if(reason: bool, marks: u64, more: u64) -> u64
    ensures { result ≡ pick reason (bit_or marks more) marks }
{
    if reason { marks | more } else { marks }
}

/// A rule marks its name if its row has no other symbols than names that are marked, and signs where signs hold.
fn mark_held(table: &Table, rule: usize, signs: bool, marks: u64) -> u64
    ensures value { OfRule table.now (λ g k. mark_rule_lem (coming signs) g k marks) rule result }
    ensures grew { Up count_ones marks result }
{
    let held = row_holds(table, table.first_of(rule) as usize, signs, marks);
    mark_if(held, marks, bits::bit(table.left_of(rule) as u64))
}

/// A rule of a name that is marked marks the names of its row.
fn mark_reachable(table: &Table, rule: usize, marks: u64) -> u64
    ensures value { OfRule table.now (λ g k. reach_rule g k marks) rule result }
    ensures grew { Up count_ones marks result }
{
    let reached = bits::test(marks, table.left_of(rule) as u64);
    mark_if(
        reached,
        marks,
        row_names(table, table.first_of(rule) as usize),
    )
}

/// The marks after one round over so many rules.
fn mark_round<F: Fn(usize, u64) -> u64>(rules: usize, marks: u64, mark: &F) -> u64
    requires callable { F.IsAlwaysCallable mark.now }
    requires grows { MarkGrows F.Fn mark.now rules }
    ensures grew { Up count_ones marks result }
    ensures value { (f : ℕ → ℕ → ℕ) → MarkIs F.Fn mark.now rules f → result ≡ counted rules f marks }
{
    let mut after = marks;
    for rule in 0..rules {
        after = mark(rule, after);
    }
    after
}

/// The marks after rounds until one adds nothing.
// Not by `until_still`, which changes a row in place: marks are one number, and a round gives the next.
fn mark_all<F: Fn(usize, u64) -> u64>(rules: usize, start: u64, mark: F) -> u64
    requires callable { F.IsAlwaysCallable mark }
    requires grows { MarkGrows F.Fn mark rules }
    ensures { (f : ℕ → ℕ → ℕ) → MarkIs F.Fn mark rules f → result ≡ iter 64 (counted rules f) start }
{
    let mut marks = start;
    'round: loop {
        let next = mark_round(rules, marks, &mark);
        if next == marks {
            return marks;
        }
        marks = next;
    }
}

/// The names that can vanish.
pub fn nullable(table: &Table) -> u64
    ensures { OfGrammar table.now nullable_of result }
{
    mark_all(
        table.rules,
        0,
        |rule, marks| mark_held(table, rule, false, marks),
    )
}

/// The names of which signs come.
// as `nullable` and `reachable`: each is the common function at its own step
pub fn productive(table: &Table) -> u64
    ensures { OfGrammar table.now productive_of result }
{
    mark_all(
        table.rules,
        0,
        |rule, marks| mark_held(table, rule, true, marks),
    )
}

/// The names that are reached from the beginning, which is name 0.
pub fn reachable(table: &Table) -> u64
    ensures { OfGrammar table.now reachable_of result }
{
    let beginning = bits::bit(0);
    mark_all(
        table.rules,
        beginning,
        |rule, marks| mark_reachable(table, rule, marks),
    )
}

/// A rule names its own name and those of its row.
fn mark_named(table: &Table, rule: usize, names: u64) -> u64
    ensures value { OfRule table.now (λ g k. name_rule g k names) rule result }
    ensures grew { Up count_ones names result }
{
    let left = bits::bit(table.left_of(rule) as u64);
    names | (left | row_names(table, table.first_of(rule) as usize))
}

/// The names that stand in the grammar.
pub fn names_in(table: &Table) -> u64
    ensures { OfGrammar table.now names_in result }
{
    mark_round(
        table.rules,
        0,
        &|rule, names| mark_named(table, rule, names),
    )
}

/// Puts what one rule adds into FIRST, and says whether that added a sign.
// no struct of the names that can vanish and FIRST: the one is known before, the other is worked out here
fn first_rule(table: &Table, nullable: u64, rule: usize, firsts: &mut [u64]) -> bool
    ensures value { OfRule table.now (λ g k. first_of_rule g nullable k firsts.old) rule firsts.new }
    ensures grew { Grew size firsts.old firsts.new result }
{
    let signs = row_opening(table, table.first_of(rule) as usize, nullable, firsts);
    put(firsts, table.left_of(rule) as usize, signs)
}

/// One round over the rules; says whether it added a sign.
fn first_round(table: &Table, nullable: u64, firsts: &mut [u64]) -> bool
    ensures value { OfGrammar table.now (λ g. first_of_rules g nullable firsts.old) firsts.new }
    ensures grew { Grew size firsts.old firsts.new result }
{
    each_in(
        firsts,
        table.rules,
        |firsts, rule| first_rule(table, nullable, rule, firsts),
    )
}

/// Rounds until one adds nothing.
fn first_rounds(table: &Table, nullable: u64, firsts: &mut [u64])
    ensures { OfGrammar table.now (λ g. iter (64 * length firsts.old) (first_of_rules g nullable) firsts.old) firsts.new }
{
    until_still(firsts, |firsts| first_round(table, nullable, firsts));
}

/// FIRST: the signs that each name can begin with, if these names can vanish.
pub fn firsts(table: &Table, nullable: u64) -> [u64; 32]
    ensures { OfGrammarWith table.now nullable_of nullable firsts_of result }
{
    let mut firsts = [0; 32];
    first_rounds(table, nullable, &mut firsts);
    firsts
}

/// Of what stands behind the next symbol of a place: the signs that it can begin with, and whether it can vanish.
#[derive(Clone, Copy)]
pub struct Behind {
    pub signs: u64,
    pub vanishes: bool,
}

/// Past the end.
const NOTHING: Behind = Behind {
    signs: 0,
    vanishes: false,
};

/// What stands behind the next symbol of each place.
#[derive(Clone, Copy)]
pub struct Analysis {
    pub places: [Behind; 192],
}

impl Analysis {
    /// The signs that can begin what stands behind the next symbol of a place; none past the end.
    pub fn behind_at(&self, place: usize) -> u64
        ensures { result ≡ behind_in self.now place }
    {
        at_or(&self.places, place, NOTHING).signs
    }

    /// Whether what stands behind the next symbol of a place can vanish; not past the end.
    pub fn passes_at(&self, place: usize) -> bool
        ensures { result ≡ passes_in self.now place }
    {
        at_or(&self.places, place, NOTHING).vanishes
    }
}

/// What stands behind the next symbol of a place.
fn behind_of(table: &Table, place: usize, nullable: u64, firsts: &[u64]) -> Behind
    ensures { IsBehind table.now nullable firsts.now place result }
{
    if table.next_at(place).is_none() {
        return Behind {
            signs: 0,
            vanishes: true,
        };
    }
    Behind {
        signs: row_opening(table, place + 1, nullable, firsts),
        vanishes: row_vanishes(table, place + 1, nullable),
    }
}

/// The analysis of the grammar in a table.
pub fn analyse(table: &Table) -> Analysis
    ensures value { Analyses table.now result }
    ensures meaning { ExactAtPlaces table.now result }
{
    let nullable = nullable(table);
    let firsts = firsts(table, nullable);
    let places = array::from_fn(|place| behind_of(table, place, nullable, &firsts));
    Analysis { places }
}

/// The lowest name that is marked.
fn lowest_name(names: u64) -> Option<u8>
    ensures { listed result ≡ pick (names == 0) [] (count_trailing_zeros 64 names ∷ []) }
{
    (names != 0).then(|| names.trailing_zeros() as u8)
}

/// The lowest of the names of which nothing comes; if there are none, the lowest of those that are not reached.
fn lowest(unproductive: u64, unreachable: u64) -> Option<u8>
    ensures { listed result ≡ lowest_of unproductive unreachable }
{
    lowest_name(unproductive).or(lowest_name(unreachable))
}

/// A name of no use, of which nothing comes or which is not reached; none if every name is of use.
pub fn useless(table: &Table) -> Option<u8>
    ensures value { OfGrammar table.now useless_of (listed result) }
    ensures meaning { Judges table.now result }
{
    let names = names_in(table);
    let unproductive = bits::without(names, productive(table));
    let unreachable = bits::without(names, reachable(table));
    lowest(unproductive, unreachable)
}
