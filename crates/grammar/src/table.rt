// A grammar as a table: what comes next at each of its places, and which rule the place is in.
ghost use Rattle.std.specs.Prelude.{◌≡◌, ◌+◌, ◌<◌, [], length};
ghost use Rattle.grammar.specs.Symbols.{first_of_row, next_of, told_next};
ghost use Rattle.grammar.specs.Table.{Added, Answers, Holds, NumberOf, PlaceOf, ReadOff, RowAt, first_in, owner_in, symbol_in, left_in};

use crate::spelling::is_grammar;
use crate::symbol::Symbol;
use words::rows::at_or;

// Symbols stay the bytes of the spelling, so that a row is copied from it in one piece.
/// What stands at the place behind the last symbol of a rule.
pub const COMPLETE: u8 = 64;

/// Names stand from here on, signs below.
pub const FIRST_NAME: u8 = 32;

/// A grammar, by its rules and its places.
#[derive(Clone, Copy)]
pub struct Table {
    // There is no heap, so the arrays have room for the largest grammar, and these say how much is in use.
    /// How many rules.
    pub rules: usize,
    /// How many places.
    pub places: usize,
    // Symbols and rules of places stand apart, since a row of symbols is copied in one piece and lent as a slice.
    /// What comes next at each place: a sign, 32 and a name, or `COMPLETE`.
    pub symbols: [u8; 192],
    /// The rule of each place.
    pub owners: [u8; 192],
    /// Each rule, but for its row.
    pub heads: [Head; 64],
}

/// The first place of a rule, and the name that it is for.
#[derive(Clone, Copy)]
pub struct Head {
    pub first: u8,
    pub left: u8,
}

/// Of a rule that there is none.
const NO_HEAD: Head = Head { first: 0, left: 0 };

/// A place in a rule: which rule, and how many of its symbols are done.
#[derive(Clone, Copy)]
pub struct Place {
    pub rule: u8,
    pub dot: u8,
}

impl Table {
    /// What comes next at a place.
    pub fn symbol_at(&self, place: usize) -> u8
        ensures { result ≡ symbol_in self.now place }
    {
        at_or(&self.symbols, place, COMPLETE)
    }

    /// The symbol that comes next at a place; none at a complete one.
    pub fn next_at(&self, place: usize) -> Option<Symbol>
        ensures value { told_next result ≡ next_of (symbol_in self.now place) }
        ensures meaning { ReadOff self.now first_of_row place (told_next result) }
    {
        let code = self.symbol_at(place);
        (code < COMPLETE).then_some(Symbol::from(code))
    }

    /// The rule that a place is in.
    pub fn owner_of(&self, place: usize) -> u8
        ensures { result ≡ owner_in self.now place }
    {
        at_or(&self.owners, place, 0)
    }

    /// The place where a rule begins.
    pub fn first_of(&self, rule: usize) -> u8
        ensures { result ≡ first_in self.now rule }
    {
        at_or(&self.heads, rule, NO_HEAD).first
    }

    /// The name that a rule is for.
    pub fn left_of(&self, rule: usize) -> u8
        ensures { result ≡ left_in self.now rule }
    {
        at_or(&self.heads, rule, NO_HEAD).left
    }

    /// The place behind the last symbol of the rule that a place is in.
    fn end_of(&self, place: usize) -> usize
        ensures { ReadOff self.now (λ β. place + length β) place result }
    {
        let next = usize::from(self.owner_of(place)) + 1;
        let behind = if next < self.rules {
            usize::from(self.first_of(next))
        } else {
            self.places
        };
        behind.saturating_sub(1)
    }

    /// The symbols of the row that comes at a place.
    // by where its rule ends, so that no symbol is looked at here: who reads the row may leave it at the first
    pub fn row_at(&self, from: usize) -> &[u8]
        ensures { RowAt self.now from result.now }
    {
        let end = self.end_of(from).min(self.symbols.len());
        &self.symbols[from.min(end)..end]
    }

    /// The rule of a place, and how much of it is done there.
    pub fn place_of(&self, number: usize) -> Place
        ensures rule { result.rule ≡ owner_in self.now number }
        ensures marks { PlaceOf self.now number result }
    {
        let rule = self.owner_of(number);
        let done = number.saturating_sub(self.first_of(rule as usize) as usize);
        let dot = u8::try_from(done).unwrap_or(0);
        Place { rule, dot }
    }

    /// The number of a place.
    pub fn number_of(&self, place: Place) -> usize
        ensures value { result ≡ first_in self.now place.rule + place.dot }
        ensures marks { NumberOf self.now place result }
    {
        self.first_of(place.rule as usize) as usize + place.dot as usize
    }

    /// No rules.
    fn empty() -> Table
        ensures { Holds result [] }
    {
        Table {
            rules: 0,
            places: 0,
            symbols: [COMPLETE; 192],
            owners: [0; 192],
            heads: [NO_HEAD; 64],
        }
    }

    /// One more rule, of this name and with this row.
    fn add_rule(&mut self, left: u8, row: &[u8])
        requires rules { self.old.rules < 64 }
        requires places { self.old.places + length row.now < 192 }
        ensures { Added self.old left row.now self.new }
    {
        let rule = self.rules;
        let from = self.places;
        let end = from + row.len();
        let first = from as u8;
        self.heads[rule] = Head { first, left };
        self.symbols[from..end].copy_from_slice(row);
        self.symbols[end] = COMPLETE;
        self.owners[from..end + 1].fill(rule as u8);
        self.rules = rule + 1;
        self.places = end + 1;
    }
}

/// The grammar that the bytes spell, or none.
pub fn read(bytes: &[u8]) -> Option<Table>
    ensures { Answers bytes.now result }
{
    if !is_grammar(bytes) {
        return None;
    }
    let mut table = Table::empty();
    let mut rest = &bytes[1..];
    'rule: while let [left, count, behind @ ..] = rest {
        let (row, later) = behind.split_at(*count as usize);
        table.add_rule(*left, row);
        rest = later;
    }
    Some(table)
}
