// Whether bytes spell a grammar: how many rules, then for each its name, how many symbols are on its right side, and these.
ghost use Rattle.std.specs.Prelude.{◌≡◌};
ghost use Rattle.grammar.specs.Grammar.{every};
ghost use Rattle.grammar.specs.Spelling.{Spells, byte_ok, first_ok, grammar_ok, head_ok, rules_ok, symbol_ok};

use crate::table::{COMPLETE, FIRST_NAME};

// How many signs there are.
const SIGNS: u8 = 24;

// The symbols that all right sides together may have, less the one of the first rule.
const ROOM: u8 = 127;

/// Whether a byte is a symbol's: a sign's, or a name's.
// by the byte and not by `Symbol`, since here it is asked whether a byte that came in is a symbol's at all
pub fn is_symbol(b: u8) -> bool
    ensures { result ≡ symbol_ok b }
{
    b < SIGNS || (FIRST_NAME..COMPLETE).contains(&b)
}

// A byte of a right side: a sign, or a name but the beginning's.
fn is_right(b: u8) -> bool
    ensures { result ≡ byte_ok b }
{
    is_symbol(b) && b != FIRST_NAME
}

fn all_right(bytes: &[u8]) -> bool
    ensures { result ≡ every byte_ok bytes.now }
{
    bytes.iter().all(|b| is_right(*b))
}

// A later rule's first two bytes, where so many bytes are behind them and so many symbols may still come.
fn is_head(name: u8, count: u8, behind: usize, room: u8) -> bool
    ensures { result ≡ head_ok name count behind room }
{
    name >= 1 && name < 32 && count as usize <= behind && count <= room
}

// So many later rules, with so many symbols on their right sides at most, and nothing behind them.
fn are_rules(many: u8, few: u8, bytes: &[u8]) -> bool
    ensures { result ≡ rules_ok many few bytes.now }
{
    let mut room = few;
    let mut rest = bytes;
    for _ in 0..many {
        let [name, count, row @ ..] = rest else {
            return false;
        };
        if !is_head(*name, *count, row.len(), room) {
            return false;
        }
        let (row, behind) = row.split_at(*count as usize);
        if !all_right(row) {
            return false;
        }
        rest = behind;
        room -= *count;
    }
    rest.is_empty()
}

// How many rules there are, and the first: one symbol for the beginning.
fn is_first(many: u8, name: u8, count: u8, symbol: u8) -> bool
    ensures { result ≡ first_ok many name count symbol }
{
    many >= 1 && many <= 64 && name == 0 && count == 1 && is_right(symbol)
}

pub fn is_grammar(bytes: &[u8]) -> bool
    ensures value { result ≡ grammar_ok bytes.now }
    ensures meaning { Spells result bytes.now }
{
    let [many, name, count, symbol, later @ ..] = bytes else {
        return false;
    };
    if !is_first(*many, *name, *count, *symbol) {
        return false;
    }
    are_rules(*many - 1, ROOM, later)
}
