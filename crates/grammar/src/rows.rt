// What is read off the row of symbols that comes at a place: whether it can vanish, comes to signs, what it can begin with, its names.
ghost use Rattle.std.specs.Prelude.{◌≡◌, [], ◌∷◌};
ghost use Rattle.grammar.specs.Rows.{coming, holding, named, opening, producing, vanishing};
ghost use Rattle.grammar.specs.Symbols.{told};
ghost use Rattle.grammar.specs.Table.{ReadOff};

use crate::symbol::Symbol;
use crate::table::Table;
use words::bits;
use words::rows::at;

/// Whether a symbol is one of these names, or a sign where signs hold.
#[tactic(auto, unfolding(crate::specs::Rows::holding))]
fn holds(signs: bool, names: u64, symbol: Symbol) -> bool
    ensures { result ≡ holding signs names (told symbol ∷ []) }
{
    match symbol {
        Symbol::Sign(_) => signs,
        Symbol::Name(name) => bits::test(names, u64::from(name)),
    }
}

/// Whether the row that comes at a place has no other symbols than these names, and signs where signs hold.
pub(crate) fn row_holds(table: &Table, from: usize, signs: bool, names: u64) -> bool
    ensures { ReadOff table.now (coming signs names) from result }
{
    table
        .row_at(from)
        .iter()
        .all(|code| holds(signs, names, Symbol::from(*code)))
}

/// Whether the row that comes at a place can vanish, if these names can.
pub fn row_vanishes(table: &Table, from: usize, nullable: u64) -> bool
    ensures { ReadOff table.now (vanishing nullable) from result }
{
    row_holds(table, from, false, nullable)
}

/// Whether the row that comes at a place comes to signs, if these names do.
pub fn row_produces(table: &Table, from: usize, productive: u64) -> bool
    ensures { ReadOff table.now (producing productive) from result }
{
    row_holds(table, from, true, productive)
}

/// The signs that the row that comes at a place can begin with, if these names can vanish and each name can begin with these signs.
pub fn row_opening(table: &Table, from: usize, nullable: u64, firsts: &[u64]) -> u64
    ensures { ReadOff table.now (opening nullable firsts.now) from result }
{
    let row = table.row_at(from);
    let mut signs = 0;
    for code in row {
        let name = match Symbol::from(*code) {
            Symbol::Sign(sign) => return bits::with(signs, u64::from(sign)),
            Symbol::Name(name) => name,
        };
        signs |= at(firsts, usize::from(name));
        if !bits::test(nullable, u64::from(name)) {
            return signs;
        }
    }
    signs
}

/// The mark of a symbol: a name's bit, and none of a sign.
#[tactic(auto, using(crate::proofs::RowBytes::named_sign, crate::proofs::RowBytes::named_name))]
fn name_mark(symbol: Symbol) -> u64
    ensures { result ≡ named (told symbol ∷ []) }
{
    match symbol {
        Symbol::Sign(_) => 0,
        Symbol::Name(name) => bits::bit(u64::from(name)),
    }
}

/// The names that stand in the row that comes at a place.
pub fn row_names(table: &Table, from: usize) -> u64
    ensures { ReadOff table.now named from result }
{
    table
        .row_at(from)
        .iter()
        .fold(0, |names, code| names | name_mark(Symbol::from(*code)))
}
