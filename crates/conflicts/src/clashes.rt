// Pairs of places that share a stack, each with a word of what can be ahead, and the first clash among them.
ghost use Rattle.std.specs.Prelude.{◌≡◌, ◌^◌, ◌<◌, ◌≤◌, length, replicate, None, ◌≢◌};
ghost use Rattle.words.specs.Iter.{Grew, counted};
ghost use Rattle.words.specs.Rows.{size};
ghost use Rattle.grammar.specs.Analysed.{Analysed};
ghost use Rattle.grammar.specs.Grammar.{AllUseful, Grammar};
ghost use Rattle.grammar.specs.Places.{places};
ghost use Rattle.grammar.specs.Prepared.{Describes};
ghost use Rattle.grammar.specs.Table.{Shows};
ghost use Rattle.conflicts.specs.Pairs.{advance_pair, begun_both_lem as begun_both_of, begun_own as begun_own_of, clash_among_lem as clash_among_of, clash_at as clash_at_of, clash_in_row_lem as clash_in_row_of, clash_mask as clash_mask_of, clash_of, close_pair_lem, pair_round_lem as pair_round_of, pair_step as pair_step_of, pairs, word_of as word_of_parts};
ghost use Rattle.conflicts.specs.PairSteps.{Found, OtherIsRule, ShownAt, Steps, StepsAt, Tells, begin_with};

use crate::pair::Pair;
use grammar::analysis::Analysis;
use grammar::prepared::Prepared;
use grammar::symbol::Symbol;
use grammar::table::Table;
use items::sets::is_next;
use words::bits;
use words::rounds::{each_in, until_still};
use words::rows::{at, put, zeroes};

/// A clash: the rule due, the other rule or none for going on, and the sign ahead or 24 for the end.
#[derive(Clone, Copy, Debug, PartialEq, Eq)]
pub struct ClashFound {
    pub due: u8,
    pub other: Option<u8>,
    // a number, since the end is a bit beside the signs' bits in every set of lookaheads
    pub ahead: u8,
}

/// How many signs there are, with the end.
const SIGNS: u64 = 25;

/// How many words the pairs have.
const WORDS: usize = 36864;

/// The first place beside itself, before the end.
const START: u64 = 1 << 24 | 1 << 49;

/// Lets both go over the same symbol.
fn advance(work: &mut [u64], table: &Table, pair: Pair) -> bool
    ensures value { ShownAt table.now pair.first pair.second (λ g. work.new ≡ advance_pair g pair.first pair.second work.old) }
    ensures grew { Grew size work.old work.new result }
{
    let symbol = table.next_at(pair.first);
    if symbol.is_none() || symbol != table.next_at(pair.second) {
        return false;
    }
    let word = at(work, pair.index());
    put(work, pair.next_index(), word)
}

/// Begins a rule at the first place beside the second, and in the mirror image, if it is for the name that is next at the first.
fn begin_rule(
    work: &mut [u64],
    table: &Table,
    pair: Pair,
    rule: usize,
    here: u64,
    there: u64,
) -> bool
    ensures value { (g : Grammar) → Shows table.now g → pair.first < places g → rule < length g → work.new ≡ begin_with g pair.first pair.second here there rule work.old }
    ensures grew { Grew size work.old work.new result }
{
    if !is_next(table, pair.first, rule) {
        return false;
    }
    let begun = Pair::new(usize::from(table.first_of(rule)), pair.second);
    let beside = put(work, begun.index(), here);
    let mirrored = put(work, begun.mirror().index(), there);
    beside || mirrored
}

/// Begins every rule of the name that is next at the first place, beside the second.
fn begin_rules(work: &mut [u64], table: &Table, pair: Pair, here: u64, there: u64) -> bool
    ensures value { (g : Grammar) → Shows table.now g → pair.first < places g → work.new ≡ counted (length g) (begin_with g pair.first pair.second here there) work.old }
    ensures grew { Grew size work.old work.new result }
{
    each_in(work, table.rules, |work, rule| {
        begin_rule(work, table, pair, rule, here, there)
    })
}

/// What a rule begun at `p` can have ahead, where `p` has the word `here`.
// no `ahead_of` of items: that is 0 where nothing is ahead, and this is not
fn begun_own(analysis: &Analysis, p: usize, here: u64) -> u64
    ensures { (g : Grammar) → Analysed g analysis.now → p < places g → result ≡ begun_own_of g p here }
{
    let passed = if analysis.passes_at(p) {
        bits::low(here, SIGNS)
    } else {
        0
    };
    analysis.behind_at(p) | passed
}

/// What both can have ahead then, where the mirror image has the word `there`.
fn begun_both(analysis: &Analysis, p: usize, here: u64, there: u64) -> u64
    ensures value { (g : Grammar) → Analysed g analysis.now → p < places g → result ≡ begun_both_of g p here there }
    ensures fits { result < 2 ^ 39 }
{
    let passed = if analysis.passes_at(p) {
        here >> SIGNS
    } else {
        0
    };
    analysis.behind_at(p) & bits::low(there, SIGNS) | passed
}

/// The word of two parts.
fn word_of(own: u64, both: u64) -> u64
    ensures { own < 2 ^ 25 → both < 2 ^ 39 → result ≡ word_of_parts own both }
{
    own | both << SIGNS
}

/// Begins every rule of the name that is next at the first place, beside the second, with what is ahead there.
fn close_pair(work: &mut [u64], grammar: &Prepared, pair: Pair) -> bool
    ensures value { StepsAt grammar.now pair.first pair.second (λ g. close_pair_lem g pair.first pair.second) work.old work.new }
    ensures grew { Grew size work.old work.new result }
{
    let here = at(work, pair.index());
    let there = at(work, pair.mirror().index());
    let own = begun_own(&grammar.analysis, pair.first, here);
    let both = begun_both(&grammar.analysis, pair.first, here, there);
    begin_rules(
        work,
        &grammar.table,
        pair,
        word_of(own, both),
        word_of(bits::low(there, SIGNS), both),
    )
}

/// What a pair gives to others, if it came about at all.
fn pair_step(work: &mut [u64], grammar: &Prepared, pair: Pair) -> bool
    ensures value { StepsAt grammar.now pair.first pair.second (λ g. pair_step_of g pair.first pair.second) work.old work.new }
    ensures grew { Grew size work.old work.new result }
{
    if at(work, pair.index()) == 0 {
        return false;
    }
    let advanced = advance(work, &grammar.table, pair);
    let closed = close_pair(work, grammar, pair);
    advanced || closed
}

/// How many places there are; never more than the words are made for.
#[tactic(auto, using(grammar::proofs::Places::places_bound))]
fn place_count(table: &Table) -> usize
    ensures value { (g : Grammar) → Shows table.now g → result ≡ places g }
    ensures fits { result ≤ 192 }
{
    table.places.min(192)
}

/// The pairs of one place with each.
fn pair_row(work: &mut [u64], grammar: &Prepared, p: usize) -> bool
    requires { p < 192 }
    ensures value { StepsAt grammar.now p p (λ g. counted (places g) (pair_step_of g p)) work.old work.new }
    ensures grew { Grew size work.old work.new result }
{
    each_in(work, place_count(&grammar.table), |work, q| {
        pair_step(work, grammar, Pair::new(p, q))
    })
}

/// One round over all pairs; says whether it added a bit.
fn pair_round(work: &mut [u64], grammar: &Prepared) -> bool
    ensures value { Steps grammar.now pair_round_of work.old work.new }
    ensures grew { Grew size work.old work.new result }
{
    each_in(
        work,
        place_count(&grammar.table),
        |work, p| pair_row(work, grammar, p),
    )
}

/// All pairs, by rounds until one adds nothing.
fn saturate(work: &mut [u64], grammar: &Prepared)
    ensures { (g : Grammar) → Describes grammar.now g → length work.old ≡ 36864 → work.new ≡ pairs g }
{
    zeroes(work);
    put(work, 0, START);
    until_still(work, |work| pair_round(work, grammar));
}

/// The signs ahead with which a rule complete at the first place clashes with what comes at the second.
fn clash_mask(work: &[u64], table: &Table, pair: Pair) -> u64
    ensures { ShownAt table.now pair.first pair.second (λ g. result ≡ clash_mask_of g work.now pair.first pair.second) }
{
    if table.next_at(pair.first).is_some() {
        return 0;
    }
    let word = at(work, pair.index());
    match table.next_at(pair.second) {
        Some(Symbol::Sign(sign)) => bits::low(word, SIGNS) & bits::bit(u64::from(sign)),
        Some(Symbol::Name(_)) => 0,
        None if pair.first == pair.second => 0,
        None => word >> SIGNS,
    }
}

/// The clash at a pair, with the lowest sign.
fn clash_at(work: &[u64], table: &Table, pair: Pair) -> Option<ClashFound>
    ensures value { ShownAt table.now pair.first pair.second (λ g. Found result (clash_at_of g work.now pair.first pair.second)) }
    ensures other { ShownAt table.now pair.first pair.second (λ g. OtherIsRule g result) }
{
    let mask = clash_mask(work, table, pair);
    if mask == 0 {
        return None;
    }
    let complete = table.next_at(pair.second).is_none();
    let other = complete.then_some(table.owner_of(pair.second));
    Some(ClashFound {
        due: table.owner_of(pair.first),
        other,
        ahead: mask.trailing_zeros() as u8,
    })
}

/// The first clash at `p`, in the order of the other place.
fn clash_in_row(work: &[u64], table: &Table, p: usize) -> Option<ClashFound>
    requires { p < 192 }
    ensures value { ShownAt table.now p p (λ g. Found result (clash_in_row_of g work.now p)) }
    ensures other { ShownAt table.now p p (λ g. OtherIsRule g result) }
{
    (0..place_count(table)).find_map(|q| clash_at(work, table, Pair::new(p, q)))
}

/// The first clash, in the order of places.
fn clash_among(work: &[u64], table: &Table) -> Option<ClashFound>
    ensures value { (g : Grammar) → Shows table.now g → Found result (clash_among_of g work.now) }
    ensures other { (g : Grammar) → Shows table.now g → OtherIsRule g result }
{
    (0..place_count(table)).find_map(|p| clash_in_row(work, table, p))
}

/// The first clash of the grammar, or none; the words are 0 afterwards. Of a slice of another length it makes nothing.
pub fn find_clash(work: &mut [u64], grammar: &Prepared) -> Option<ClashFound>
    ensures untouched { (length work.old ≢ 36864) → (result ≡ None) × (work.new ≡ work.old) }
    ensures cleared { length work.old ≡ 36864 → work.new ≡ replicate 36864 0 }
    ensures value { (g : Grammar) → Describes grammar.now g → length work.old ≡ 36864 → Found result (clash_of g) }
    ensures other { (g : Grammar) → Describes grammar.now g → OtherIsRule g result }
    ensures meaning { (g : Grammar) → Describes grammar.now g → length work.old ≡ 36864 → AllUseful g → Tells g result }
{
    if work.len() != WORDS {
        return None;
    }
    saturate(work, grammar);
    let clash = clash_among(work, &grammar.table);
    zeroes(work);
    clash
}
